//! Cases of `tasks`, as those of `run` are written.

/// Scripts without a faulty line.
pub(crate) const TASKS: &str = "\
plain: Two tasks, of which the second one runs first.\n\
begin 1 ready / append 0 write 0 AA*512 / append 0 read 0 1 / deliver 1 / deliver 4 / \
deliver 5 / deliver 7 / deliver 8 / settle\n\
begin 1 ready\n\
append 0 0 0 2A0000000000000001000000 out AA*512\n\
rung 0 0 0\n\
append 0 0 1 280000000000000001000000 in 512\n\
low 0 0 1\n\
linked 0 0 1\n\
rung 0 0 1\n\
ran 0 0 1 u0 280000000000000001000000 - good\n\
ran 0 0 0 u0 2A0000000000000001000000 AA*512 good\n\
ended 0 0 0 good\n\
ended 0 0 1 good\n\
taken 0 0 0 good\n\
taken 0 0 1 good 00*512\n\
settled\n\
=\n\
all: Nine ORBs and eight places: the ninth one is read when a place is free.\n\
begin 1 ready / append 0 tur / append 0 tur / append 0 tur / append 0 tur / append 0 tur / \
append 0 tur / append 0 tur / append 0 tur / append 0 tur / step 20 / deliver 22 / \
deliver 23 / deliver 25 / deliver 26 / deliver 28 / deliver 29 / deliver 31 / deliver 32 / \
deliver 34 / deliver 35 / deliver 37 / deliver 38 / deliver 40 / deliver 41 / state 0 / \
deliver 30 / deliver 44 / settle / state 0 / settle\n\
begin 1 ready\n\
append 0 0 0 000000000000000000000000 none\n\
rung 0 0 0\n\
sent 1 0 0 t FFC00110FFC1FFFFF0040008000800000000000010000000\n\
append 0 0 1 000000000000000000000000 none\n\
low 0 0 1\n\
linked 0 0 1\n\
rung 0 0 1\n\
sent 2 0 0 t FFC00500FFC1FFFFF004001000000001\n\
append 0 0 2 000000000000000000000000 none\n\
low 0 0 2\n\
linked 0 0 2\n\
rung 0 0 2\n\
sent 3 0 0 t FFC00900FFC1FFFFF004001000000002\n\
append 0 0 3 000000000000000000000000 none\n\
low 0 0 3\n\
linked 0 0 3\n\
rung 0 0 3\n\
sent 4 0 0 t FFC00D00FFC1FFFFF004001000000003\n\
append 0 0 4 000000000000000000000000 none\n\
low 0 0 4\n\
linked 0 0 4\n\
rung 0 0 4\n\
sent 5 0 0 t FFC01100FFC1FFFFF004001000000004\n\
append 0 0 5 000000000000000000000000 none\n\
low 0 0 5\n\
linked 0 0 5\n\
rung 0 0 5\n\
sent 6 0 0 t FFC01500FFC1FFFFF004001000000005\n\
append 0 0 6 000000000000000000000000 none\n\
low 0 0 6\n\
linked 0 0 6\n\
rung 0 0 6\n\
sent 7 0 0 t FFC01900FFC1FFFFF004001000000006\n\
append 0 0 7 000000000000000000000000 none\n\
low 0 0 7\n\
linked 0 0 7\n\
rung 0 0 7\n\
sent 8 0 0 t FFC01D00FFC1FFFFF004001000000007\n\
append 0 0 8 000000000000000000000000 none\n\
low 0 0 8\n\
linked 0 0 8\n\
rung 0 0 8\n\
sent 9 0 0 t FFC02100FFC1FFFFF004001000000008\n\
got 1\n\
sent 10 0 t 0 FFC10120FFC0000000000000\n\
sent 11 0 t 0 FFC10150FFC000001000000000200000\n\
got 2\n\
sent 12 0 t 0 FFC10520FFC0000000000000\n\
got 3\n\
sent 13 0 t 0 FFC10920FFC0000000000000\n\
got 4\n\
sent 14 0 t 0 FFC10D20FFC0000000000000\n\
got 5\n\
sent 15 0 t 0 FFC11120FFC0000000000000\n\
got 6\n\
sent 16 0 t 0 FFC11520FFC0000000000000\n\
got 7\n\
sent 17 0 t 0 FFC11920FFC0000000000000\n\
got 8\n\
sent 18 0 t 0 FFC11D20FFC0000000000000\n\
got 9\n\
sent 19 0 t 0 FFC12120FFC0000000000000\n\
got 10\n\
got 11\n\
sent 20 0 0 t FFC00170FFC1000000000000002000000000000010000040000000000000000082900000000000000000000000000000\n\
got 12\n\
got 13\n\
got 14\n\
got 15\n\
got 16\n\
got 17\n\
got 18\n\
got 19\n\
got 20\n\
ran 0 0 0 u0 000000000000000000000000 - good\n\
ended 0 0 0 good\n\
sent 21 0 t 0 FFC10110FFC0000013000000000800000100000010000000\n\
sent 22 0 t 0 FFC10550FFC000001000004000200000\n\
got 22\n\
sent 23 0 0 t FFC00570FFC1000000000000002000000000000010000080000000000000000082900000000000000000000000000000\n\
got 23\n\
ran 0 0 1 u0 000000000000000000000000 - good\n\
ended 0 0 1 good\n\
sent 24 0 t 0 FFC10510FFC0000013000000000800000100000010000040\n\
sent 25 0 t 0 FFC10950FFC000001000008000200000\n\
got 25\n\
sent 26 0 0 t FFC00970FFC10000000000000020000000000000100000C0000000000000000082900000000000000000000000000000\n\
got 26\n\
ran 0 0 2 u0 000000000000000000000000 - good\n\
ended 0 0 2 good\n\
sent 27 0 t 0 FFC10910FFC0000013000000000800000100000010000080\n\
sent 28 0 t 0 FFC10D50FFC00000100000C000200000\n\
got 28\n\
sent 29 0 0 t FFC00D70FFC1000000000000002000000000000010000100000000000000000082900000000000000000000000000000\n\
got 29\n\
ran 0 0 3 u0 000000000000000000000000 - good\n\
ended 0 0 3 good\n\
sent 30 0 t 0 FFC10D10FFC00000130000000008000001000000100000C0\n\
sent 31 0 t 0 FFC11150FFC000001000010000200000\n\
got 31\n\
sent 32 0 0 t FFC01170FFC1000000000000002000000000000010000140000000000000000082900000000000000000000000000000\n\
got 32\n\
ran 0 0 4 u0 000000000000000000000000 - good\n\
ended 0 0 4 good\n\
sent 33 0 t 0 FFC11110FFC0000013000000000800000100000010000100\n\
sent 34 0 t 0 FFC11550FFC000001000014000200000\n\
got 34\n\
sent 35 0 0 t FFC01570FFC1000000000000002000000000000010000180000000000000000082900000000000000000000000000000\n\
got 35\n\
ran 0 0 5 u0 000000000000000000000000 - good\n\
ended 0 0 5 good\n\
sent 36 0 t 0 FFC11510FFC0000013000000000800000100000010000140\n\
sent 37 0 t 0 FFC11950FFC000001000018000200000\n\
got 37\n\
sent 38 0 0 t FFC01970FFC10000000000000020000000000000100001C0000000000000000082900000000000000000000000000000\n\
got 38\n\
ran 0 0 6 u0 000000000000000000000000 - good\n\
ended 0 0 6 good\n\
sent 39 0 t 0 FFC11910FFC0000013000000000800000100000010000180\n\
sent 40 0 t 0 FFC11D50FFC00000100001C000200000\n\
got 40\n\
sent 41 0 0 t FFC01D70FFC1000000000000002000000000000010000200000000000000000082900000000000000000000000000000\n\
got 41\n\
ran 0 0 7 u0 000000000000000000000000 - good\n\
ended 0 0 7 good\n\
sent 42 0 t 0 FFC11D10FFC00000130000000008000001000000100001C0\n\
sent 43 0 0 t FFC00140FFC1FFFFF0040000\n\
got 30\n\
taken 0 0 3 good\n\
sent 44 0 0 t FFC00D20FFC1000000000000\n\
got 44\n\
sent 45 0 t 0 FFC10D50FFC000001000020000200000\n\
got 21\n\
taken 0 0 0 good\n\
sent 46 0 0 t FFC00120FFC1000000000000\n\
got 24\n\
taken 0 0 1 good\n\
sent 47 0 0 t FFC00520FFC1000000000000\n\
got 27\n\
taken 0 0 2 good\n\
sent 48 0 0 t FFC00920FFC1000000000000\n\
got 33\n\
taken 0 0 4 good\n\
sent 49 0 0 t FFC01120FFC1000000000000\n\
got 36\n\
taken 0 0 5 good\n\
sent 50 0 0 t FFC01520FFC1000000000000\n\
got 39\n\
taken 0 0 6 good\n\
sent 51 0 0 t FFC01920FFC1000000000000\n\
got 42\n\
taken 0 0 7 good\n\
sent 52 0 0 t FFC01D20FFC1000000000000\n\
got 43\n\
sent 53 0 t 0 FFC10160FFC000000000000000000001\n\
got 45\n\
sent 54 0 0 t FFC00D70FFC1000000000000002000008000000000000000000000000000000082900000000000000000000000000000\n\
got 46\n\
got 47\n\
got 48\n\
got 49\n\
got 50\n\
got 51\n\
got 52\n\
got 53\n\
op 0 state 1\n\
got 54\n\
ran 0 0 8 u0 000000000000000000000000 - good\n\
ended 0 0 8 good\n\
sent 55 0 t 0 FFC10110FFC0000013000000000800004100000010000200\n\
got 55\n\
taken 0 0 8 good\n\
sent 56 0 0 t FFC00120FFC1000000000000\n\
got 56\n\
settled\n\
sent 57 0 0 t FFC00140FFC1FFFFF0040000\n\
got 57\n\
sent 58 0 t 0 FFC10160FFC000000000000000000002\n\
got 58\n\
op 0 state 2\n\
settled\n\
=\n\
plain: A task fails, and what the fetcher asked for in the same delivery belongs to nobody.\n\
begin 1 ready / append 0 write 0 AA*512 / append 0 tur / deliver 1 / deliver 4 / deliver 5 / \
timeout 6 / settle\n\
...timedout 6\n\
dead 0 0 timeout\n\
ended 0 0 0 failed\n\
taken 0 0 0 failed\n\
ignored 10 label\n\
settled\n";

/// Scripts with a faulty line.
pub(crate) const FAULTY_TASKS: &str = "\
all: A line of `run` that `tasks` does not have.\n\
begin 1 ready / tick\n\
begin 1 ready\n\
script 2 11\n\
=\n\
all: It has another fault.\n\
begin 1 ready / tick 1\n\
begin 1 ready\n\
script 2 4\n\
=\n\
all: A line of `queue`.\n\
begin 1 ready / pump\n\
begin 1 ready\n\
script 2 3\n\
=\n\
all: Two initiators.\n\
begin 2 ready\n\
script 1 11\n\
=\n\
all: An initiator that is not logged in.\n\
begin 1 cold\n\
script 1 11\n\
=\n\
all: A line before the run begins.\n\
tick\n\
script 1 6\n\
=\n\
all: A run that begins again.\n\
begin 1 ready / begin 1 ready\n\
begin 1 ready\n\
script 2 6\n\
=\n\
all: An initiator that there is not.\n\
begin 1 ready / append 1 tur\n\
begin 1 ready\n\
script 2 7\n\
=\n\
all: A packet.\n\
begin 1 ready / inject 0 FFC00110\n\
begin 1 ready\n\
script 2 11\n\
=\n\
all: A bus reset.\n\
begin 1 ready / reset 1 0\n\
begin 1 ready\n\
script 2 11\n\
=\n\
all: IDs that repeat.\n\
begin 1 ready / reset 0 0\n\
begin 1 ready\n\
script 2 5\n\
=\n\
all: A reset that is seen.\n\
begin 1 ready / see t\n\
begin 1 ready\n\
script 2 11\n\
=\n\
all: A login of its own.\n\
begin 1 ready / login 0 0 3\n\
begin 1 ready\n\
script 2 11\n\
=\n\
all: An abort.\n\
begin 1 ready / abort 0 0\n\
begin 1 ready\n\
script 2 11\n\
=\n\
all: An ORB that is made a dummy.\n\
begin 1 ready / dummy 0 0\n\
begin 1 ready\n\
script 2 11\n\
=\n\
all: An unsolicited status that is enabled.\n\
begin 1 ready / enable 0\n\
begin 1 ready\n\
script 2 11\n\
=\n\
all: A key.\n\
begin 1 ready / key 0 0102030405060708\n\
begin 1 ready\n\
script 2 11\n\
=\n\
all: Blank lines and comments count.\n\
# a comment /  / begin 1 ready / # tick /  / state 0 / settle / treset 0\n\
begin 1 ready\n\
sent 1 0 0 t FFC00140FFC1FFFFF0040000\n\
got 1\n\
sent 2 0 t 0 FFC10160FFC000000000000000000000\n\
got 2\n\
op 0 state 0\n\
settled\n\
script 8 11\n";
