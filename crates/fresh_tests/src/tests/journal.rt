//! A journal of two processes, Builder and Jones, in version 3, as a run text tells it.

/// A library, a program with links to it, messages between the two processes, and what changes an entry.
pub const JOURNAL: &[u8] = b"journal 44
1 0 0 set_acl > *.*.* sma = ok
2 1 4 create_dir >lib 7 7 = ok
3 1 4 set_acl >lib *.*.* sma = ok
4 1 4 create_object >lib>math 64 4 4 4 1 d:sqrt:5 = ok
5 1 4 set_acl >lib>math *.*.* re = ok
6 1 4 create_object >lib>main 64 4 4 4 1 d:go:3 l:math$sqrt l:math$cos l:none$x = ok
7 1 4 set_acl >lib>main *.*.* re = ok
8 1 4 create_seg >lib>data 100 4 4 4 = ok
9 1 4 create_link >l >lib>data = ok
10 2 4 initiate >l = refused 6 incorrect_access
11 1 4 set_acl >l *.*.* rw = ok
12 2 4 change_wdir >lib = ok
13 2 4 initiate >l x = segno 10 new
14 2 4 initiate data y = segno 10 old
15 2 4 initiate main x = refused 7 namedup
16 2 4 initiate main = segno 11 new linkage 12
17 2 4 link 12|0 = linked 13|5 new
18 2 4 link 12|1 = refused 22 no_definition
19 2 4 link 12|2 = refused 20 segment_not_found
20 2 4 link 12|3 = refused 19 not_linkage
21 2 4 status data = segment words 100 brackets 4 4 4 modes rw class 0:0
22 2 4 list >lib = names data main math
23 1 4 set_acl >lib>data Jones.*.* r = ok
24 2 4 block = waiting
25 1 4 wakeup 2 17 = sent
26 1 4 wakeup 3 17 = refused 23 no_process
27 2 4 resume = message 1 17
28 1 4 set_brackets >lib>data 4 4 5 = ok
29 1 4 del_acl >lib>data Jones.*.* = ok
30 1 4 set_dir_brackets >lib 7 7 = ok
31 1 4 set_iacl_seg >lib *.*.* r = ok
32 1 4 create_seg >lib>more 64 4 4 4 = ok
33 1 4 del_iacl_seg >lib *.*.* = ok
34 1 4 set_class >lib>data 0:1 = ok
35 1 4 rename >lib>data old = ok
36 2 4 terminate 11 = ok
37 2 4 terminate 11 = refused 18 unknown_segno
38 1 4 delete >lib>old = ok
39 2 4 initiate main = segno 14 new linkage 15
40 2 4 set_rules working_dir = ok
41 1 4 logout = ok
42 2 4 wakeup 1 1 = refused 25 ended
43 2 4 block = nobody
44 2 4 logout = ok
";

/// The same up to its first refusal, which is told as granted.
pub const WRONG: &[u8] = b"journal 10
1 0 0 set_acl > *.*.* sma = ok
2 1 4 create_dir >lib 7 7 = ok
3 1 4 set_acl >lib *.*.* sma = ok
4 1 4 create_object >lib>math 64 4 4 4 1 d:sqrt:5 = ok
5 1 4 set_acl >lib>math *.*.* re = ok
6 1 4 create_object >lib>main 64 4 4 4 1 d:go:3 l:math$sqrt l:math$cos l:none$x = ok
7 1 4 set_acl >lib>main *.*.* re = ok
8 1 4 create_seg >lib>data 100 4 4 4 = ok
9 1 4 create_link >l >lib>data = ok
10 2 4 initiate >l = segno 10 new
";
