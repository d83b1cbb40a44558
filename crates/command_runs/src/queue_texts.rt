//! Cases of `queue`, as those of `run` are written.

/// Queues whose scripts have no faulty line.
pub(crate) const QUEUES: &str = "\
plain: A submission that is sent again after a reset.\n\
begin 1 ready / submit 0 AA*512 / pump / step 6 / reset 1 0 / see t / see 0 / pump / settle / \
pump / settle / pump\n\
begin 1 ready\n\
submit 0 0 AA*512\n\
append 0 0 0 2A0000000000000001000000 out AA*512\n\
rung 0 0 0\n\
ran 0 0 0 u0 2A0000000000000001000000 AA*512 good\n\
ended 0 0 0 good\n\
reset 1\n\
seen t 1\n\
cut 0 0 reset\n\
held 1\n\
seen 0 1\n\
drop 0 0\n\
ignored 7 generation\n\
back 1\n\
mgmt 0 reconnect 1 00\n\
op 0 reconnect done\n\
settled\n\
append 0 1 0 2A0000000000000001000000 out AA*512\n\
rung 0 1 0\n\
ran 0 1 0 u0 2A0000000000000001000000 AA*512 good\n\
ended 0 1 0 good\n\
taken 0 1 0 good\n\
written 0 good\n\
settled\n\
idle\n\
=\n\
plain: A submission with a check condition.\n\
begin 1 ready / submit 64 AA*512 / pump / settle / pump\n\
...taken 0 0 0 check 5/21/00\n\
written 0 check 5/21/00\n\
settled\n\
idle\n";

/// Scripts with a faulty line.
pub(crate) const FAULTY_QUEUES: &str = "\
all: A line of `run` that `queue` does not have.\n\
begin 1 ready / append 0 tur\n\
begin 1 ready\n\
script 2 11\n\
=\n\
all: It has another fault.\n\
begin 1 ready / append 1 tur\n\
begin 1 ready\n\
script 2 7\n\
=\n\
all: A login of its own.\n\
begin 1 ready / login 0 0 3\n\
begin 1 ready\n\
script 2 11\n\
=\n\
all: A packet.\n\
begin 1 ready / inject 0 FFC00110\n\
begin 1 ready\n\
script 2 11\n\
=\n\
all: Two initiators.\n\
begin 2 ready\n\
script 1 11\n\
=\n\
all: An initiator that is not logged in.\n\
begin 1 cold\n\
script 1 11\n\
=\n\
all: A run that begins again.\n\
begin 1 ready / begin 1 ready\n\
begin 1 ready\n\
script 2 6\n\
=\n\
all: A submission before the run begins.\n\
submit 0 AA*512\n\
script 1 6\n\
=\n\
all: A pump before the run begins, of the wrong shape.\n\
pump 1\n\
script 1 6\n\
=\n\
all: A pump with a word.\n\
begin 1 ready / pump 1\n\
begin 1 ready\n\
script 2 4\n\
=\n\
all: A submission without data.\n\
begin 1 ready / submit 0\n\
begin 1 ready\n\
script 2 4\n\
=\n\
all: A submission of no whole blocks.\n\
begin 1 ready / submit 0 AA*511\n\
begin 1 ready\n\
script 2 5\n\
=\n\
all: A submission beyond four bytes.\n\
begin 1 ready / submit 4294967296 AA*512\n\
begin 1 ready\n\
script 2 5\n\
=\n\
all: An initiator that there is not.\n\
begin 1 ready / see 1\n\
begin 1 ready\n\
script 2 7\n\
=\n\
all: A word in no row.\n\
begin 1 ready / pumps\n\
begin 1 ready\n\
script 2 3\n";
