//! Cases, with a line `=` between them. The first line of a case says which lines are compared and what is
//! tried, the second one is the script with ` / ` between its lines, and the others are what is compared:
//! `...` stands for anything. The lines are all, or the plain ones, which tell no packet sent or got, or
//! those that begin with the word that is given.

/// What becomes of packets.
pub(crate) const PACKETS: &str = "\
all: A write of ORB_POINTER that comes again is answered and not acted on.\n\
begin 1 ready / append 0 tur / settle / repeat 1 / settle\n\
begin 1 ready\n\
append 0 0 0 000000000000000000000000 none\n\
rung 0 0 0\n\
sent 1 0 0 t FFC00110FFC1FFFFF0040008000800000000000010000000\n\
got 1\n\
sent 2 0 t 0 FFC10120FFC0000000000000\n\
sent 3 0 t 0 FFC10150FFC000001000000000200000\n\
got 2\n\
got 3\n\
sent 4 0 0 t FFC00170FFC1000000000000002000008000000000000000000000000000000082900000000000000000000000000000\n\
got 4\n\
ran 0 0 0 u0 000000000000000000000000 - good\n\
ended 0 0 0 good\n\
sent 5 0 t 0 FFC10110FFC0000013000000000800004100000010000000\n\
got 5\n\
taken 0 0 0 good\n\
sent 6 0 0 t FFC00120FFC1000000000000\n\
got 6\n\
settled\n\
ignored 1 again\n\
sent 7 0 t 0 FFC10120FFC0000000000000\n\
ignored 7 label\n\
settled\n\
=\n\
all: A status of a list that was reset.\n\
begin 1 ready / append 0 tur / step 4 / timeout 5 / agentreset 0 / deliver 6 / deliver 7 / \
deliver 5 / deliver 8 / append 0 tur\n\
begin 1 ready\n\
append 0 0 0 000000000000000000000000 none\n\
rung 0 0 0\n\
sent 1 0 0 t FFC00110FFC1FFFFF0040008000800000000000010000000\n\
got 1\n\
sent 2 0 t 0 FFC10120FFC0000000000000\n\
sent 3 0 t 0 FFC10150FFC000001000000000200000\n\
got 2\n\
got 3\n\
sent 4 0 0 t FFC00170FFC1000000000000002000008000000000000000000000000000000082900000000000000000000000000000\n\
got 4\n\
ran 0 0 0 u0 000000000000000000000000 - good\n\
ended 0 0 0 good\n\
sent 5 0 t 0 FFC10110FFC0000013000000000800004100000010000000\n\
timedout 5\n\
dead 0 0 timeout\n\
sent 6 0 0 t FFC00100FFC1FFFFF004000400000001\n\
got 6\n\
cut 0 0 agentreset\n\
sent 7 0 t 0 FFC10120FFC0000000000000\n\
got 7\n\
drop 0 0\n\
op 0 agentreset done\n\
ignored 5 slot\n\
sent 8 0 0 t FFC00120FFC1000000000000\n\
ignored 8 label\n\
append 0 1 0 000000000000000000000000 none\n\
rung 0 1 0\n\
sent 9 0 0 t FFC00110FFC1FFFFF0040008000800000000000010000040\n\
=\n\
all: Two commands, with a read ahead.\n\
begin 1 ready / append 0 tur / append 0 tur / settle\n\
begin 1 ready\n\
append 0 0 0 000000000000000000000000 none\n\
rung 0 0 0\n\
sent 1 0 0 t FFC00110FFC1FFFFF0040008000800000000000010000000\n\
append 0 0 1 000000000000000000000000 none\n\
low 0 0 1\n\
linked 0 0 1\n\
rung 0 0 1\n\
sent 2 0 0 t FFC00500FFC1FFFFF004001000000001\n\
got 1\n\
sent 3 0 t 0 FFC10120FFC0000000000000\n\
sent 4 0 t 0 FFC10150FFC000001000000000200000\n\
got 2\n\
sent 5 0 t 0 FFC10520FFC0000000000000\n\
got 3\n\
got 4\n\
sent 6 0 0 t FFC00170FFC1000000000000002000000000000010000040000000000000000082900000000000000000000000000000\n\
got 5\n\
got 6\n\
ran 0 0 0 u0 000000000000000000000000 - good\n\
ended 0 0 0 good\n\
sent 7 0 t 0 FFC10110FFC0000013000000000800000100000010000000\n\
sent 8 0 t 0 FFC10550FFC000001000004000200000\n\
got 7\n\
taken 0 0 0 good\n\
sent 9 0 0 t FFC00120FFC1000000000000\n\
got 8\n\
sent 10 0 0 t FFC00570FFC1000000000000002000008000000000000000000000000000000082900000000000000000000000000000\n\
got 9\n\
got 10\n\
ran 0 0 1 u0 000000000000000000000000 - good\n\
ended 0 0 1 good\n\
sent 11 0 t 0 FFC10110FFC0000013000000000800004100000010000040\n\
got 11\n\
taken 0 0 1 good\n\
sent 12 0 0 t FFC00120FFC1000000000000\n\
got 12\n\
settled\n\
=\n\
plain: A read ahead that times out is forgotten, and its ORB is read again.\n\
begin 1 ready / append 0 tur / append 0 tur / step 6 / timeout 8 / settle\n\
...ran 0 0 0 u0 000000000000000000000000 - good\n\
ended 0 0 0 good\n\
timedout 8\n\
taken 0 0 0 good\n\
ignored 10 label\n\
ran 0 0 1 u0 000000000000000000000000 - good\n\
ended 0 0 1 good\n\
taken 0 0 1 good\n\
settled\n\
=\n\
plain: An append while the answer of a read of the next pointer is in flight.\n\
begin 1 ready / append 0 tur / settle / ring 0 / deliver 7 / deliver 9 / append 0 tur / \
deliver 11 / deliver 10 / settle\n\
...rung 0 0 0\n\
append 0 0 1 000000000000000000000000 none\n\
low 0 0 1\n\
linked 0 0 1\n\
rung 0 0 1\n\
ran 0 0 1 u0 000000000000000000000000 - good\n\
ended 0 0 1 good\n\
taken 0 0 1 good\n\
settled\n\
=\n\
all: Deliveries in another order come to an end.\n\
begin 1 ready / append 0 tur / deliver 1 / deliver 3 / deliver 2 / step 10000\n\
...taken 0 0 0 good\n\
...got 6\n\
=\n\
taken: The same: one status is taken.\n\
begin 1 ready / append 0 tur / deliver 1 / deliver 3 / deliver 2 / step 10000\n\
taken 0 0 0 good\n\
=\n\
all: Data in three segments, by a page table.\n\
begin 1 ready / append 0 write 8 11*512+22*512 seg 512,500,12 pay 7 / settle\n\
...FFC1000010100000827800032A0000000008000002000000\n\
...50FFC000001010000000180000\n\
...00180000020000001100000001F4000011000210000C000011000414\n\
...50FFC000001100000002000000\n\
...50FFC000001100021001F40000\n\
...50FFC0000011000414000C0000\n\
...ran 0 0 0 u0 2A0000000008000002000000 11*512+22*512 good\n\
...settled\n\
=\n\
all: An injected AGENT_RESET without a login.\n\
begin 2 ready / inject 1 FFC00100FFC2FFFFF004000400000001 / settle\n\
begin 2 ready\n\
injected 1\n\
sent 1 0 1 t FFC00100FFC2FFFFF004000400000001\n\
ignored 1 login\n\
sent 2 0 t 1 FFC20120FFC0700000000000\n\
ignored 2 label\n\
settled\n\
=\n\
all: An injected ORB of request format 1.\n\
begin 1 ready / append 0 tur / deliver 1 / lose 3 / \
inject 0 FFC00170FFC10000000000000020000080000000000000000000000000000000A2900000000000000000000000000000 / \
settle / append 0 tur\n\
...got 2\n\
got 4\n\
dead 0 0 grammar\n\
ended 0 0 0 illegal 01\n\
sent 5 0 t 0 FFC10110FFC0000013000000000800006901000010000000\n\
got 5\n\
taken 0 0 0 illegal 01\n\
sent 6 0 0 t FFC00120FFC1000000000000\n\
got 6\n\
settled\n\
refused 7 7\n\
=\n\
all: An injected packet whose source is not its sender.\n\
begin 1 ready / inject 0 FFC00100FFC2FFFFF004000400000001\n\
begin 1 ready\n\
refused 2 12\n";

/// What becomes of ORBs and lists.
pub(crate) const LISTS: &str = "\
plain: A pointer whose low quadlet alone is written is still null.\n\
begin 1 ready / append 0 tur / deliver 1 / put 0 tur / low 0 / deliver 3 / link 0 / ring 0 / \
settle\n\
...append 0 0 1 000000000000000000000000 none\n\
low 0 0 1\n\
linked 0 0 1\n\
rung 0 0 1\n\
ran 0 0 0 u0 000000000000000000000000 - good\n\
ended 0 0 0 good\n\
taken 0 0 0 good\n\
ran 0 0 1 u0 000000000000000000000000 - good\n\
ended 0 0 1 good\n\
taken 0 0 1 good\n\
settled\n\
=\n\
all: The same: the pointer as the target reads it.\n\
begin 1 ready / append 0 tur / deliver 1 / put 0 tur / low 0 / deliver 3 / link 0 / ring 0 / \
settle\n\
...sent 4 0 0 t FFC00170FFC1000000000000002000008000000010000040...\n\
=\n\
plain: An ORB that is made a dummy before it was read.\n\
begin 1 ready / append 0 tur / dummy 0 0 / settle\n\
...rung 0 0 0\n\
dummied 0 0 0\n\
ended 0 0 0 dummy\n\
taken 0 0 0 dummy\n\
settled\n\
=\n\
plain: An ORB that is made a dummy after it was read.\n\
begin 1 ready / append 0 tur / step 3 / dummy 0 0 / settle\n\
...rung 0 0 0\n\
dummied 0 0 0\n\
ran 0 0 0 u0 000000000000000000000000 - good\n\
ended 0 0 0 good\n\
taken 0 0 0 good\n\
settled\n\
=\n\
plain: An abort of a WRITE whose data is being read.\n\
begin 1 ready / append 0 write 5 AA*512 / step 4 / abort 0 0 / deliver 6 / deliver 8 / \
deliver 9 / settle\n\
...rung 0 0 0\n\
mgmt 0 abort 1 00\n\
op 0 abort done\n\
ended 0 0 0 aborted\n\
taken 0 0 0 aborted\n\
settled\n\
=\n\
all: A slot stays in use while its ORB is being aborted, so the third ORB is in slot 2.\n\
begin 1 ready / append 0 tur / append 0 tur / abort 0 0 / deliver 1 / deliver 5 / deliver 6 / \
deliver 7 / append 0 tur / settle\n\
...002000000000000010000080...\n\
=\n\
taken: The same: all three statuses are taken.\n\
begin 1 ready / append 0 tur / append 0 tur / abort 0 0 / deliver 1 / deliver 5 / deliver 6 / \
deliver 7 / append 0 tur / settle\n\
taken 0 0 0 good\n\
taken 0 0 1 good\n\
taken 0 0 2 good\n\
=\n\
op: The same: the abort ends once.\n\
begin 1 ready / append 0 tur / append 0 tur / abort 0 0 / deliver 1 / deliver 5 / deliver 6 / \
deliver 7 / append 0 tur / settle\n\
op 0 abort done\n\
=\n\
plain: A new list behind an abort of the set.\n\
begin 1 ready / append 0 tur / settle / abortset 0 / settle / append 0 tur / settle\n\
...settled\n\
cut 0 0 abortset\n\
mgmt 0 abortset 1 00\n\
drop 0 0\n\
op 0 abortset done\n\
settled\n\
append 0 1 0 000000000000000000000000 none\n\
rung 0 1 0\n\
ran 0 1 0 u0 000000000000000000000000 - good\n\
ended 0 1 0 good\n\
taken 0 1 0 good\n\
settled\n\
=\n\
plain: A unit reset cuts the lists of both initiators.\n\
begin 2 ready / append 0 tur / append 1 tur / settle / lureset 0 / settle / state 1 / settle\n\
...settled\n\
cut 0 0 unitreset\n\
cut 1 0 unitreset\n\
cleared 0\n\
mgmt 0 lureset 1 00\n\
drop 0 0\n\
op 0 lureset done\n\
settled\n\
drop 1 0\n\
op 1 state 0\n\
settled\n\
=\n\
plain: A reset while a status is in flight, then a reconnect.\n\
begin 1 ready / append 0 read 0 1 / step 6 / reset 1 0 / see t / see 0 / settle / reconnect 0 / \
settle / append 0 tur / settle\n\
...ran 0 0 0 u0 280000000000000001000000 - good\n\
ended 0 0 0 good\n\
reset 1\n\
seen t 1\n\
cut 0 0 reset\n\
held 1\n\
seen 0 1\n\
drop 0 0\n\
ignored 7 generation\n\
settled\n\
back 1\n\
mgmt 0 reconnect 1 00\n\
op 0 reconnect done\n\
settled\n\
append 0 1 0 000000000000000000000000 none\n\
rung 0 1 0\n\
ran 0 1 0 u0 000000000000000000000000 - good\n\
ended 0 1 0 good\n\
taken 0 1 0 good\n\
settled\n";

/// Logins, operations and refusals.
pub(crate) const LOGINS: &str = "\
plain: A query of a unit with two logins.\n\
begin 2 ready / query 0 0 / settle\n\
begin 2 ready\n\
mgmt 0 query 0 00\n\
op 0 query done 2\n\
settled\n\
=\n\
plain: A reconnect before the target saw the reset; it is seen at last.\n\
begin 1 ready / reset 1 0 / see 0 / reconnect 0 / settle / see t\n\
begin 1 ready\n\
reset 1\n\
seen 0 1\n\
ignored 1 generation\n\
settled\n\
seen t 1\n\
held 1\n\
=\n\
plain: A reconnect in the last second of a hold.\n\
begin 1 ready / reset 0 1 / see t / see 0 / tick / tick / tick / reconnect 0 / settle\n\
...back 1\n\
mgmt 0 reconnect 1 00\n\
op 0 reconnect done\n\
settled\n\
=\n\
plain: A reconnect after the last second of a hold.\n\
begin 1 ready / reset 0 1 / see t / see 0 / tick / tick / tick / tick / reconnect 0 / settle\n\
...tick\n\
expired 1\n\
mgmt 0 reconnect 1 0A\n\
op 0 reconnect refused 0A\n\
settled\n\
=\n\
plain: An exclusive login keeps others out until it leaves.\n\
begin 2 cold / rom 0 / rom 1 / settle / login 0 0 0 excl / settle / login 1 0 0 / settle / \
logout 0 / settle / login 1 0 0 / settle\n\
...mgmt 0 login 0 00 1\n\
op 0 login done\n\
settled\n\
mgmt 1 login 0 04\n\
op 1 login refused 04\n\
settled\n\
left 1\n\
mgmt 0 logout 1 00\n\
op 0 logout done\n\
settled\n\
mgmt 1 login 0 00 2\n\
op 1 login done\n\
settled\n\
=\n\
plain: A login without and with the password.\n\
begin 1 cold / rom 0 / settle / key 0 0102030405060708 / login 0 0 0 / settle / \
login 0 0 0 pass 0102030405060708 / settle / key 3 0000000000000000\n\
...settled\n\
key 0\n\
mgmt 0 login 0 04\n\
op 0 login refused 04\n\
settled\n\
mgmt 0 login 0 00 1\n\
op 0 login done\n\
settled\n\
refused 9 13\n\
=\n\
plain: A login on a unit that does not exist.\n\
begin 1 cold / rom 0 / settle / login 0 3 0 / settle / append 0 write 0 AA*512 / \
append 0 write 0 BB*512 / append 0 read 0 1 / settle\n\
...mgmt 0 login 3 05\n\
op 0 login refused 05\n\
settled\n\
refused 6 2\n\
refused 7 2\n\
refused 8 2\n\
settled\n\
=\n\
all: Operations while ORB_POINTER is being written.\n\
begin 1 ready / append 0 tur / agentreset 0 / logout 0\n\
...refused 3 4\n\
refused 4 4\n\
=\n\
plain: Refusals of several kinds.\n\
begin 1 ready / deliver 1 / link 0 / ring 0 / abort 0 0 / reconnect 0 / \
inject 0 FFC00100FFC2FFFFF004000400000001\n\
begin 1 ready\n\
refused 2 11\n\
refused 3 6\n\
refused 4 8\n\
refused 5 8\n\
refused 6 2\n\
refused 7 12\n";

/// Commands and media.
pub(crate) const COMMANDS: &str = "\
plain: A block is written and read back.\n\
begin 1 ready / append 0 write 5 AA*512 / settle / append 0 read 5 1 / settle\n\
begin 1 ready\n\
append 0 0 0 2A0000000005000001000000 out AA*512\n\
rung 0 0 0\n\
ran 0 0 0 u0 2A0000000005000001000000 AA*512 good\n\
ended 0 0 0 good\n\
taken 0 0 0 good\n\
settled\n\
append 0 0 1 280000000005000001000000 in 512\n\
low 0 0 1\n\
linked 0 0 1\n\
rung 0 0 1\n\
ran 0 0 1 u0 280000000005000001000000 - good\n\
ended 0 0 1 good\n\
taken 0 0 1 good AA*512\n\
settled\n\
=\n\
taken: Bytes in pieces.\n\
begin 1 ready / append 0 write 7 aB*500+010203040506070809ff0b0c / append 0 read 7 1 / settle\n\
taken 0 0 0 good\n\
taken 0 0 1 good AB*500+010203040506070809FF0B0C\n\
=\n\
taken: Reads at the last block, past it, and of no block.\n\
begin 1 ready / append 0 read 63 1 / append 0 read 64 1 / append 0 read 63 0 / settle\n\
taken 0 0 0 good 00*512\n\
taken 0 0 1 check 5/21/00\n\
taken 0 0 2 good\n\
=\n\
plain: The same: the command of the third, and the outcome of the second.\n\
begin 1 ready / append 0 read 63 1 / append 0 read 64 1 / append 0 read 63 0 / settle\n\
...append 0 0 2 28000000003F000000000000 none\n\
...ran 0 0 1 u0 280000000040000001000000 - check 5/21/00\n\
...\n\
=\n\
plain: A read past the last block.\n\
begin 1 ready / append 0 read 64 1 / settle\n\
...taken 0 0 0 check 5/21/00\n\
settled\n\
=\n\
taken: A stopped unit and a started one.\n\
begin 1 ready / append 0 stop / append 0 tur / append 0 start / append 0 tur / settle\n\
taken 0 0 0 good\n\
taken 0 0 1 check 2/04/02\n\
taken 0 0 2 good\n\
taken 0 0 3 good\n\
=\n\
taken: The first command behind a unit reset.\n\
begin 1 ready / lureset 0 / settle / append 0 tur / append 0 tur / settle\n\
taken 0 0 0 check 6/29/00\n\
taken 0 0 1 good\n\
=\n\
taken: A medium whose second call fails.\n\
begin 1 cold / rom 0 / settle / login 0 2 0 / settle / append 0 write 0 AA*512 / \
append 0 write 0 BB*512 / append 0 read 0 1 / settle\n\
taken 0 0 0 good\n\
taken 0 0 1 check 3/0C/00\n\
taken 0 0 2 good AA*512\n\
=\n\
taken: A protected medium.\n\
begin 1 cold / rom 0 / settle / login 0 1 0 / settle / append 0 write 0 AA*512 / \
append 0 write 0 BB*512 / append 0 read 0 1 / settle\n\
taken 0 0 0 check 7/27/00\n\
taken 0 0 1 check 7/27/00\n\
taken 0 0 2 good 5A*512\n\
=\n\
taken: An eject of a medium that is no bay.\n\
begin 1 cold / rom 0 / settle / login 0 1 0 / settle / append 0 capacity / append 0 eject / \
settle\n\
taken 0 0 0 good 0000003F00000200\n\
taken 0 0 1 check 5/24/00\n\
=\n\
taken: The largest write, and READ(12).\n\
begin 1 ready / append 0 write12 0 33*16384 / append 0 read12 31 1 / append 0 read12 64 1 / \
settle\n\
taken 0 0 0 good\n\
taken 0 0 1 good 33*512\n\
taken 0 0 2 check 5/21/00\n\
=\n\
append: The same: the command blocks.\n\
begin 1 ready / append 0 write12 0 33*16384 / append 0 read12 31 1 / append 0 read12 64 1 / \
settle\n\
append 0 0 0 AA0000000000000000200000 out 33*16384\n\
append 0 0 1 A8000000001F000000010000 in 512\n\
...\n\
=\n\
plain: The disc of a bay is changed. An eject that is prevented changes nothing.\n\
begin 1 ready / append 0 write 5 AA*512 / settle / append 0 read 5 1 / settle /  / \
append 0 prevent / append 0 eject / append 0 allow / append 0 eject / append 0 tur / \
append 0 load / append 0 read12 5 1 / settle\n\
begin 1 ready\n\
append 0 0 0 2A0000000005000001000000 out AA*512\n\
rung 0 0 0\n\
ran 0 0 0 u0 2A0000000005000001000000 AA*512 good\n\
ended 0 0 0 good\n\
taken 0 0 0 good\n\
settled\n\
append 0 0 1 280000000005000001000000 in 512\n\
low 0 0 1\n\
linked 0 0 1\n\
rung 0 0 1\n\
ran 0 0 1 u0 280000000005000001000000 - good\n\
ended 0 0 1 good\n\
taken 0 0 1 good AA*512\n\
settled\n\
append 0 0 2 1E0000000100000000000000 none\n\
low 0 0 2\n\
linked 0 0 2\n\
rung 0 0 2\n\
append 0 0 3 1B0000000200000000000000 none\n\
low 0 0 3\n\
linked 0 0 3\n\
rung 0 0 3\n\
append 0 0 4 1E0000000000000000000000 none\n\
low 0 0 4\n\
linked 0 0 4\n\
rung 0 0 4\n\
append 0 0 5 1B0000000200000000000000 none\n\
low 0 0 5\n\
linked 0 0 5\n\
rung 0 0 5\n\
append 0 0 6 000000000000000000000000 none\n\
low 0 0 6\n\
linked 0 0 6\n\
rung 0 0 6\n\
append 0 0 7 1B0000000300000000000000 none\n\
low 0 0 7\n\
linked 0 0 7\n\
rung 0 0 7\n\
append 0 0 8 A80000000005000000010000 in 512\n\
low 0 0 8\n\
linked 0 0 8\n\
rung 0 0 8\n\
ran 0 0 2 u0 1E0000000100000000000000 - good\n\
ended 0 0 2 good\n\
taken 0 0 2 good\n\
ran 0 0 3 u0 1B0000000200000000000000 - check 5/53/02\n\
ended 0 0 3 check 5/53/02\n\
taken 0 0 3 check 5/53/02\n\
ran 0 0 4 u0 1E0000000000000000000000 - good\n\
ended 0 0 4 good\n\
taken 0 0 4 good\n\
ran 0 0 5 u0 1B0000000200000000000000 - good\n\
ended 0 0 5 good\n\
taken 0 0 5 good\n\
ran 0 0 6 u0 000000000000000000000000 - check 2/3A/00\n\
ended 0 0 6 check 2/3A/00\n\
taken 0 0 6 check 2/3A/00\n\
ran 0 0 7 u0 1B0000000300000000000000 - good\n\
ended 0 0 7 good\n\
taken 0 0 7 good\n\
ran 0 0 8 u0 A80000000005000000010000 - good\n\
ended 0 0 8 good\n\
taken 0 0 8 good 77*512\n\
settled\n\
=\n\
taken: An eject of a prevented unit, and a load from an empty shelf.\n\
begin 1 ready / append 0 prevent / append 0 eject / append 0 allow / append 0 eject / \
append 0 load / append 0 eject / append 0 load / settle\n\
taken 0 0 0 good\n\
taken 0 0 1 check 5/53/02\n\
taken 0 0 2 good\n\
taken 0 0 3 good\n\
taken 0 0 4 good\n\
taken 0 0 5 good\n\
taken 0 0 6 check 2/3A/00\n\
=\n\
taken: A change of the disc is told to the other login.\n\
begin 2 ready / enable 1 / settle / append 0 eject / append 0 tur / append 0 load / \
append 0 read 0 1 / settle / append 1 tur / append 1 tur / settle\n\
taken 0 0 0 good\n\
taken 0 0 1 check 2/3A/00\n\
taken 0 0 2 good\n\
taken 0 0 3 good 77*512\n\
taken 1 0 0 check 6/28/00\n\
taken 1 0 1 good\n\
=\n\
plain: The same: the unsolicited status block.\n\
begin 2 ready / enable 1 / settle / append 0 eject / append 0 tur / append 0 load / \
append 0 read 0 1 / settle / append 1 tur / append 1 tur / settle\n\
begin 2 ready\n\
op 1 enable done\n\
settled\n\
...unsolicited 1\n\
...told 1 6/28/00\n\
...settled\n\
...settled\n\
=\n\
unsolicited: The same: it is sent once.\n\
begin 2 ready / enable 1 / settle / append 0 eject / append 0 tur / append 0 load / \
append 0 read 0 1 / settle / append 1 tur / append 1 tur / settle\n\
unsolicited 1\n\
=\n\
told: The same: it is got once.\n\
begin 2 ready / enable 1 / settle / append 0 eject / append 0 tur / append 0 load / \
append 0 read 0 1 / settle / append 1 tur / append 1 tur / settle\n\
told 1 6/28/00\n";

/// ROM, login, commands, reset, reconnect and logout.
pub(crate) const USUAL_SESSION: &str = "\
plain: A usual session.\n\
begin 1 cold / rom 0 / settle / login 0 0 2 / settle / append 0 inquiry / append 0 capacity / \
settle / append 0 write 8 11*512+22*512 seg 512,500,12 pay 7 / \
append 0 read 8 2 seg 1000,24 pay 7 / settle / reset 1 0 / see t / see 0 / reconnect 0 / \
settle / append 0 read 9 1 / settle / logout 0 / settle\n\
begin 1 cold\n\
op 0 rom done\n\
settled\n\
mgmt 0 login 0 00 1\n\
op 0 login done\n\
settled\n\
append 0 0 0 120000002400000000000000 in 36\n\
rung 0 0 0\n\
append 0 0 1 250000000000000000000000 in 8\n\
low 0 0 1\n\
linked 0 0 1\n\
rung 0 0 1\n\
ran 0 0 0 u0 120000002400000000000000 - good\n\
ended 0 0 0 good\n\
taken 0 0 0 good 0E0004021F000000534250324449534B50524F46494C45204449534B+20*4+30303031\n\
ran 0 0 1 u0 250000000000000000000000 - good\n\
ended 0 0 1 good\n\
taken 0 0 1 good 0000003F00000200\n\
settled\n\
append 0 0 2 2A0000000008000002000000 out 11*512+22*512\n\
low 0 0 2\n\
linked 0 0 2\n\
rung 0 0 2\n\
append 0 0 3 280000000008000002000000 in 1024\n\
low 0 0 3\n\
linked 0 0 3\n\
rung 0 0 3\n\
ran 0 0 2 u0 2A0000000008000002000000 11*512+22*512 good\n\
ended 0 0 2 good\n\
taken 0 0 2 good\n\
ran 0 0 3 u0 280000000008000002000000 - good\n\
ended 0 0 3 good\n\
taken 0 0 3 good 11*512+22*512\n\
settled\n\
reset 1\n\
seen t 1\n\
cut 0 0 reset\n\
held 1\n\
seen 0 1\n\
drop 0 0\n\
back 1\n\
mgmt 0 reconnect 1 00\n\
op 0 reconnect done\n\
settled\n\
append 0 1 0 280000000009000001000000 in 512\n\
rung 0 1 0\n\
ran 0 1 0 u0 280000000009000001000000 - good\n\
ended 0 1 0 good\n\
taken 0 1 0 good 22*512\n\
settled\n\
cut 0 1 logout\n\
left 1\n\
mgmt 0 logout 1 00\n\
drop 0 1\n\
op 0 logout done\n\
settled\n";

/// Scripts with a faulty line: the lines before it run, and the fault is told.
pub(crate) const FAULTY: &str = "\
all: The first line does not begin a run.\n\
settle\n\
script 1 6\n\
=\n\
all: A word that is in no row.\n\
begin 1 ready / jump\n\
begin 1 ready\n\
script 2 3\n\
=\n\
all: An initiator out of range.\n\
begin 1 ready / append 4 tur\n\
begin 1 ready\n\
script 2 5\n\
=\n\
all: An initiator that the run does not have.\n\
begin 1 ready / append 1 tur\n\
begin 1 ready\n\
script 2 7\n\
=\n\
all: A count above 32.\n\
begin 1 ready / append 0 read 0 33\n\
begin 1 ready\n\
script 2 5\n\
=\n\
all: A word too few.\n\
begin 1 ready / append 0 read 0\n\
begin 1 ready\n\
script 2 4\n\
=\n\
all: A second beginning.\n\
begin 1 ready / settle / begin 1 ready\n\
begin 1 ready\n\
settled\n\
script 3 6\n\
=\n\
all: Too many initiators.\n\
begin 5 ready\n\
script 1 5\n\
=\n\
all: Too few physical IDs.\n\
begin 2 cold / reset 1 2\n\
begin 2 cold\n\
script 2 4\n\
=\n\
all: Lines behind the faulty one do nothing.\n\
begin 1 ready / step 0 / append 0 tur / settle\n\
begin 1 ready\n\
script 2 5\n";
