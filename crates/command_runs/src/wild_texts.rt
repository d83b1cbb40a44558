//! Cases of a wild initiator, with a line `=` between them. The first line of a case says what is tried, the
//! second one has the wild initiator's lines with ` / ` between them, and the third one lines of the journal in
//! this order, which tell how the injected packets were judged.

/// What a wild initiator 1 does at unit 2.
pub(crate) const WILD: &str = "\
A list that points to itself: its ORB runs twice.\n\
append 1 tur / deliver 20 / lose 22 / \
inject 1 FFC00170FFC2000000000000002000000000000010000000000000000000000082900000000000000000000000000000\n\
ran 1 0 0 u2 000000000000000000000000 - good / ran 1 0 0 u2 000000000000000000000000 - good / ignored 32 slot\n\
=\n\
A list of two whose first ORB names the second one, and the second the first.\n\
append 1 tur / append 1 tur / deliver 20 / lose 23 / \
inject 1 FFC00170FFC2000000000000002000000000000010000040000000000000000082900000000000000000000000000000 / \
deliver 24 / lose 26 / \
inject 1 FFC00570FFC2000000000000002000000000000010000000000000000000000082900000000000000000000000000000\n\
ran 1 0 0 u2 000000000000000000000000 - good / ran 1 0 1 u2 000000000000000000000000 - good / \
dead 1 0 refused / ignored 39 slot\n\
=\n\
ORB_POINTER past the last slot.\n\
inject 1 FFC00110FFC2FFFFF0040028000800000000000010000800\n\
dead 1 - refused / ended 1 - - failed / ignored 28 slot\n\
=\n\
ORB_POINTER at the end of memory.\n\
inject 1 FFC00110FFC2FFFFF0040028000800000000FFFFFFFFFFFC\n\
dead 1 - refused / ended 1 - - failed / ignored 28 slot\n\
=\n\
A next pointer that names no slot.\n\
append 1 tur / deliver 20 / lose 22 / \
inject 1 FFC00170FFC2000000000000002000000000FFFFFFFFFFE0000000000000000082900000000000000000000000000000\n\
ran 1 0 0 u2 000000000000000000000000 - good / dead 1 0 refused / ended 1 - - failed\n\
=\n\
A management ORB where no place is.\n\
inject 1 FFC00110FFC2FFFFF0010000000800000000FFFFFFFFFFF0\n\
mgmtfail 1 refused\n\
=\n\
A page table past 2^48.\n\
append 1 tur / deliver 20 / lose 22 / \
inject 1 FFC00170FFC20000000000000020000080000000000000000000FFFFFFFFFFFC829800022A0000000000000001000000\n\
dead 1 0 refused / taken 1 0 0 failed\n\
=\n\
An element of a page table past 2^48.\n\
append 1 tur / deliver 20 / lose 22 / \
inject 1 FFC00170FFC20000000000000020000080000000000000000000000010100000829800012A0000000000000001000000 / \
deliver 23 / lose 24 / inject 1 FFC00170FFC2000000000000000800000200FFFFFFFFFF00\n\
dead 1 0 grammar / taken 1 0 0 illegal FF\n\
=\n\
A buffer past 2^48.\n\
append 1 tur / deliver 20 / lose 22 / \
inject 1 FFC00170FFC20000000000000020000080000000000000000000FFFFFFFFFF008A900200280000000000000001000000\n\
dead 1 0 grammar / taken 1 0 0 illegal FF\n\
=\n\
A buffer at the other initiator's node: the target writes to the node of the login.\n\
append 1 tur / deliver 20 / lose 22 / \
inject 1 FFC00170FFC2000000000000002000008000000000000000FFC10000110000008A900200280000000000000001000000\n\
ran 1 0 0 u2 280000000000000001000000 - good / dead 1 0 refused / taken 1 0 0 failed\n\
=\n\
16 bytes of an ORB.\n\
append 1 tur / deliver 20 / lose 22 / \
inject 1 FFC00170FFC20000000000000010000000000000000000000000000000000000\n\
dead 1 0 grammar / taken 1 0 0 failed\n\
=\n\
36 bytes of an ORB.\n\
append 1 tur / deliver 20 / lose 22 / \
inject 1 FFC00170FFC200000000000000240000800000000000000000000000000000008290000000000000000000000000000000000000\n\
dead 1 0 grammar / taken 1 0 0 failed\n\
=\n\
4 bytes of a page table of 8.\n\
append 1 tur / deliver 20 / lose 22 / \
inject 1 FFC00170FFC20000000000000020000080000000000000000000000010100000829800012A0000000000000001000000 / \
deliver 23 / lose 24 / inject 1 FFC00170FFC20000000000000004000002000000\n\
dead 1 0 grammar / taken 1 0 0 failed\n\
=\n\
8 bytes of data of 512.\n\
append 1 tur / deliver 20 / lose 22 / \
inject 1 FFC00170FFC20000000000000020000080000000000000000000000011000000829002002A0000000000000001000000 / \
deliver 23 / lose 24 / inject 1 FFC00170FFC2000000000000000800007777777777777777\n\
dead 1 0 grammar / taken 1 0 0 failed\n\
=\n\
Lock requests to the target and to the other initiator.\n\
inject 1 FFC00190FFC2FFFFF0040028000800020000000000000000 / \
inject 1 FFC10590FFC2000011000000000800010000000000000000\n\
got 20 / sent 24 0 t 1 FFC201B0FFC060000000000000000002 / ignored 21 source\n\
=\n\
Cut packets to both.\n\
inject 1 FFC00110FFC2FFFF / inject 1 FFC00110FFC2FFFFF004002800080000 / inject 1 FFC10150FFC20000 / \
inject 1 FFC10110FFC20000130000000008\n\
ignored 20 grammar / ignored 21 grammar / ignored 22 grammar / ignored 23 grammar\n\
=\n\
Two pointers in one generation.\n\
inject 1 FFC00110FFC2FFFFF0040028000800000000000010000000 / \
inject 1 FFC00510FFC2FFFFF0040028000800000000000010000040\n\
sent 26 0 t 1 FFC20520FFC0400000000000 / dead 1 - refused / ended 1 - - failed\n\
=\n\
A status block to the other initiator's FIFO.\n\
inject 1 FFC10110FFC2000013000000000800004100000010000000\n\
ignored 20 source\n\
=\n\
The registers of the other initiator's agent.\n\
inject 1 FFC00100FFC2FFFFF004000400000001 / inject 1 FFC00510FFC2FFFFF0040008000800000000000010000000 / \
inject 1 FFC00900FFC2FFFFF004001000000001\n\
ignored 20 login / ignored 21 login / ignored 22 login\n\
=\n\
A doorbell in RESET.\n\
inject 1 FFC00100FFC2FFFFF004003000000001\n\
got 20 / sent 23 0 t 1 FFC20120FFC0000000000000 / ignored 23 label\n\
=\n\
A doorbell in ACTIVE.\n\
append 1 tur / deliver 20 / inject 1 FFC00500FFC2FFFFF004003000000001\n\
got 23 / sent 27 0 t 1 FFC20520FFC0000000000000 / taken 1 0 0 good / \
sent 33 0 t 1 FFC20150FFC000001000000000080000\n\
=\n\
A doorbell in SUSPENDED.\n\
append 1 tur / settle / inject 1 FFC00500FFC2FFFFF004003000000001\n\
taken 1 0 0 good / got 43 / sent 45 0 t 1 FFC20150FFC000001000000000080000\n\
=\n\
A doorbell in DEAD.\n\
inject 1 FFC00110FFC2FFFFF0040028000800000000000000000000 / settle / inject 1 FFC00500FFC2FFFFF004003000000001\n\
dead 1 - refused / got 43 / sent 44 0 t 1 FFC20520FFC0000000000000\n\
=\n\
A login with the other initiator's EUI-64.\n\
inject 1 FFC00110FFC2FFFFF0010000000800000000000012000000 / deliver 20 / lose 22 / \
inject 1 FFC00170FFC2000000000000002000000000000000000000000000001200100080000001000000100000000013000000 / \
deliver 23 / lose 24 / inject 1 FFC00160FFC200000000000002000000 / deliver 25 / lose 26 / \
inject 1 FFC00160FFC200000000000000000001\n\
mgmt 1 login 1 00 4 / ignored 34 login / mgmtfail 1 refused\n";

/// The plain lines of initiator 0, which writes two blocks of unit 0, reads them and one behind the last, asks
/// for the state of its agent and logs out.
pub(crate) const OWN: &str = "\
append 0 0 0 2A0000000003000002000000 out A5*512+5A*512\n\
rung 0 0 0\n\
ran 0 0 0 u0 2A0000000003000002000000 A5*512+5A*512 good\n\
ended 0 0 0 good\n\
taken 0 0 0 good\n\
append 0 0 1 280000000003000002000000 in 1024\n\
low 0 0 1\n\
linked 0 0 1\n\
rung 0 0 1\n\
append 0 0 2 280000000040000001000000 in 512\n\
low 0 0 2\n\
linked 0 0 2\n\
rung 0 0 2\n\
ran 0 0 1 u0 280000000003000002000000 - good\n\
ended 0 0 1 good\n\
taken 0 0 1 good A5*512+5A*512\n\
ran 0 0 2 u0 280000000040000001000000 - check 5/21/00\n\
ended 0 0 2 check 5/21/00\n\
taken 0 0 2 check 5/21/00\n\
op 0 state 2\n\
cut 0 0 logout\n\
mgmt 0 logout 1 00\n\
drop 0 0\n\
op 0 logout done\n";
