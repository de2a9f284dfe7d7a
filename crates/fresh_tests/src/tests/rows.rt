//! Worked rows: their journals as run texts tell them, each played before both programs.

use super::entrants::entrant;
use both_supervisors::{Came, play};
use std::test::Fail;

/// Two names of a segment, its deletion, and the end of its number.
const TWO_NAMES: &[u8] = b"journal 7
1 0 0 set_acl > Jones.Faculty.a sma = ok
2 1 4 create_seg >a 64 4 4 4 = ok
3 1 4 initiate >a alpha = segno 10 new
4 1 4 initiate >a beta = segno 10 old
5 1 4 delete >a = ok
6 1 4 terminate 10 = ok
7 1 4 logout = ok
";

/// The pages of a deleted segment, and the page of a linkage section that was taken away, are used again.
const USED_AGAIN: &[u8] = b"journal 16
1 0 0 set_acl > Jones.Faculty.a sma = ok
2 1 4 create_object >math 64 4 4 4 1 d:sqrt:5 = ok
3 1 4 create_object >main 64 4 4 4 1 l:math$sqrt = ok
4 1 4 create_seg >a 1024 4 4 4 = ok
5 1 4 initiate >a = segno 10 new
6 1 4 initiate >main = segno 11 new linkage 12
7 1 4 create_seg >b 64 4 4 4 = ok
8 1 4 delete >a = ok
9 1 4 terminate 11 = ok
10 1 4 create_seg >c 1024 4 4 4 = ok
11 1 4 initiate >c = segno 13 new
12 1 4 initiate >main = segno 14 new linkage 15
13 1 4 terminate 10 = ok
14 1 4 delete >main = ok
15 1 4 terminate 14 = ok
16 1 4 logout = ok
";

/// A link, which the working directory resolves before the library.
const A_LINK: &[u8] = b"journal 14
1 0 0 create_dir >lib 7 7 = ok
2 0 0 create_object >lib>math 64 4 4 4 1 d:sqrt:5 = ok
3 0 0 set_acl >lib>math *.*.* re = ok
4 0 0 create_dir >udd 7 7 = ok
5 0 0 set_acl >udd *.*.* s = ok
6 0 0 create_object >udd>math 64 4 4 4 1 d:sqrt:7 = ok
7 0 0 set_acl >udd>math *.*.* re = ok
8 0 0 create_object >udd>main 64 4 4 4 1 l:math$sqrt = ok
9 0 0 set_acl >udd>main *.*.* re = ok
10 1 4 change_wdir >udd = ok
11 1 4 set_rules working_dir >lib = ok
12 1 4 initiate main = segno 10 new linkage 11
13 1 4 link 11|0 = linked 12|7 new
14 1 4 logout = ok
";

/// The same where the library comes first.
const LIBRARY_FIRST: &[u8] = b"journal 14
1 0 0 create_dir >lib 7 7 = ok
2 0 0 create_object >lib>math 64 4 4 4 1 d:sqrt:5 = ok
3 0 0 set_acl >lib>math *.*.* re = ok
4 0 0 create_dir >udd 7 7 = ok
5 0 0 set_acl >udd *.*.* s = ok
6 0 0 create_object >udd>math 64 4 4 4 1 d:sqrt:7 = ok
7 0 0 set_acl >udd>math *.*.* re = ok
8 0 0 create_object >udd>main 64 4 4 4 1 l:math$sqrt = ok
9 0 0 set_acl >udd>main *.*.* re = ok
10 1 4 change_wdir >udd = ok
11 1 4 set_rules >lib working_dir = ok
12 1 4 initiate main = segno 10 new linkage 11
13 1 4 link 11|0 = linked 12|5 new
14 1 4 logout = ok
";

/// The same of a symbol that is defined nowhere.
const NO_DEFINITION: &[u8] = b"journal 14
1 0 0 create_dir >lib 7 7 = ok
2 0 0 create_object >lib>math 64 4 4 4 1 d:sqrt:5 = ok
3 0 0 set_acl >lib>math *.*.* re = ok
4 0 0 create_dir >udd 7 7 = ok
5 0 0 set_acl >udd *.*.* s = ok
6 0 0 create_object >udd>math 64 4 4 4 1 d:sqrt:7 = ok
7 0 0 set_acl >udd>math *.*.* re = ok
8 0 0 create_object >udd>main 64 4 4 4 1 l:math$cos = ok
9 0 0 set_acl >udd>main *.*.* re = ok
10 1 4 change_wdir >udd = ok
11 1 4 set_rules working_dir >lib = ok
12 1 4 initiate main = segno 10 new linkage 11
13 1 4 link 11|0 = refused 22 no_definition
14 1 4 logout = ok
";

/// The same of a segment that is found nowhere.
const NO_SEGMENT: &[u8] = b"journal 14
1 0 0 create_dir >lib 7 7 = ok
2 0 0 create_object >lib>math 64 4 4 4 1 d:sqrt:5 = ok
3 0 0 set_acl >lib>math *.*.* re = ok
4 0 0 create_dir >udd 7 7 = ok
5 0 0 set_acl >udd *.*.* s = ok
6 0 0 create_object >udd>math 64 4 4 4 1 d:sqrt:7 = ok
7 0 0 set_acl >udd>math *.*.* re = ok
8 0 0 create_object >udd>main 64 4 4 4 1 l:none$x = ok
9 0 0 set_acl >udd>main *.*.* re = ok
10 1 4 change_wdir >udd = ok
11 1 4 set_rules working_dir >lib = ok
12 1 4 initiate main = segno 10 new linkage 11
13 1 4 link 11|0 = refused 20 segment_not_found
14 1 4 logout = ok
";

/// A revocation that is told by a message.
const REVOKED: &[u8] = b"journal 13
1 0 0 create_seg >a 64 4 4 4 = ok
2 0 0 set_acl >a *.*.* rw = ok
3 0 0 set_acl > Smith.Ops.a sma = ok
4 1 4 block = waiting
5 2 4 initiate >a = segno 10 new
6 2 4 wakeup 1 1 = sent
7 1 4 resume = message 2 1
8 2 4 block = waiting
9 1 4 set_acl >a Jones.Faculty.a r = ok
10 1 4 wakeup 2 1 = sent
11 2 4 resume = message 1 1
12 2 4 logout = ok
13 1 4 logout = ok
";

/// Requests that are refused, each for another reason, and a full access list.
const REFUSED_IN_TURN: &[u8] = b"journal 83
1 0 0 set_acl > Jones.Faculty.a sma = ok
2 1 4 create_dir >d 4 4 = ok
3 1 4 create_dir >d 4 4 = refused 7 namedup
4 1 4 create_seg >d>x 64 1 4 4 = refused 12 bad_brackets
5 1 4 create_seg >d>x 64 4 4 4 = ok
6 1 4 set_acl >d>x *.*.* sma = refused 13 invalid_mode
7 1 4 set_acl >d *.*.* m = refused 13 invalid_mode
8 1 4 del_acl >d>x *.*.* = refused 15 no_acl_entry
9 1 4 delete >d = refused 9 dir_not_empty
10 1 4 create_link >l >l = ok
11 1 4 list >l = refused 5 link_loop
12 1 4 status >l = link >l
13 1 4 list >d = names x
14 1 4 status >d>x = segment words 64 brackets 4 4 4 modes rw
15 1 4 initiate >d = refused 8 notaseg
16 1 4 list >d>x = refused 4 notadir
17 1 4 change_wdir < = refused 1 bad_path
18 1 4 rename >d>x y = ok
19 1 4 terminate 7 = refused 18 unknown_segno
20 1 4 set_acl >d>y P1.*.* r = ok
21 1 4 set_acl >d>y P2.*.* r = ok
22 1 4 set_acl >d>y P3.*.* r = ok
23 1 4 set_acl >d>y P4.*.* r = ok
24 1 4 set_acl >d>y P5.*.* r = ok
25 1 4 set_acl >d>y P6.*.* r = ok
26 1 4 set_acl >d>y P7.*.* r = ok
27 1 4 set_acl >d>y P8.*.* r = ok
28 1 4 set_acl >d>y P9.*.* r = ok
29 1 4 set_acl >d>y P10.*.* r = ok
30 1 4 set_acl >d>y P11.*.* r = ok
31 1 4 set_acl >d>y P12.*.* r = ok
32 1 4 set_acl >d>y P13.*.* r = ok
33 1 4 set_acl >d>y P14.*.* r = ok
34 1 4 set_acl >d>y P15.*.* r = ok
35 1 4 set_acl >d>y P16.*.* r = ok
36 1 4 set_acl >d>y P17.*.* r = ok
37 1 4 set_acl >d>y P18.*.* r = ok
38 1 4 set_acl >d>y P19.*.* r = ok
39 1 4 set_acl >d>y P20.*.* r = ok
40 1 4 set_acl >d>y P21.*.* r = ok
41 1 4 set_acl >d>y P22.*.* r = ok
42 1 4 set_acl >d>y P23.*.* r = ok
43 1 4 set_acl >d>y P24.*.* r = ok
44 1 4 set_acl >d>y P25.*.* r = ok
45 1 4 set_acl >d>y P26.*.* r = ok
46 1 4 set_acl >d>y P27.*.* r = ok
47 1 4 set_acl >d>y P28.*.* r = ok
48 1 4 set_acl >d>y P29.*.* r = ok
49 1 4 set_acl >d>y P30.*.* r = ok
50 1 4 set_acl >d>y P31.*.* r = ok
51 1 4 set_acl >d>y P32.*.* r = ok
52 1 4 set_acl >d>y P33.*.* r = ok
53 1 4 set_acl >d>y P34.*.* r = ok
54 1 4 set_acl >d>y P35.*.* r = ok
55 1 4 set_acl >d>y P36.*.* r = ok
56 1 4 set_acl >d>y P37.*.* r = ok
57 1 4 set_acl >d>y P38.*.* r = ok
58 1 4 set_acl >d>y P39.*.* r = ok
59 1 4 set_acl >d>y P40.*.* r = ok
60 1 4 set_acl >d>y P41.*.* r = ok
61 1 4 set_acl >d>y P42.*.* r = ok
62 1 4 set_acl >d>y P43.*.* r = ok
63 1 4 set_acl >d>y P44.*.* r = ok
64 1 4 set_acl >d>y P45.*.* r = ok
65 1 4 set_acl >d>y P46.*.* r = ok
66 1 4 set_acl >d>y P47.*.* r = ok
67 1 4 set_acl >d>y P48.*.* r = ok
68 1 4 set_acl >d>y P49.*.* r = ok
69 1 4 set_acl >d>y P50.*.* r = ok
70 1 4 set_acl >d>y P51.*.* r = ok
71 1 4 set_acl >d>y P52.*.* r = ok
72 1 4 set_acl >d>y P53.*.* r = ok
73 1 4 set_acl >d>y P54.*.* r = ok
74 1 4 set_acl >d>y P55.*.* r = ok
75 1 4 set_acl >d>y P56.*.* r = ok
76 1 4 set_acl >d>y P57.*.* r = ok
77 1 4 set_acl >d>y P58.*.* r = ok
78 1 4 set_acl >d>y P59.*.* r = ok
79 1 4 set_acl >d>y P60.*.* r = ok
80 1 4 set_acl >d>y P61.*.* r = ok
81 1 4 set_acl >d>y P62.*.* r = ok
82 1 4 set_acl >d>y P63.*.* r = ok
83 1 4 set_acl >d>y P64.*.* r = refused 14 acl_full
";

/// A class that is raised, and not lowered.
const RAISED: &[u8] = b"journal 9
1 0 0 create_seg >a 64 4 4 4 = ok
2 0 0 set_acl >a *.*.* rw = ok
3 0 0 set_acl > *.*.* sma = ok
4 1 4 initiate >a = segno 10 new
5 1 4 set_class >a 2:3 = ok
6 1 4 set_class >a 2:7 = ok
7 1 4 set_class >a 1:7 = refused 26 bad_class
8 1 4 status >a = segment words 64 brackets 4 4 4 modes rw class 2:7
9 1 4 logout = ok
";

/// What an initial access list gives to what is made.
const GIVEN: &[u8] = b"journal 12
1 0 0 set_acl > *.*.* sma = ok
2 0 0 create_dir >d 4 4 = ok
3 0 0 set_acl >d *.*.* sma = ok
4 0 0 set_iacl_seg >d *.Faculty.* r = ok
5 0 0 create_seg >d>x 64 4 4 4 = ok
6 1 4 status >d>x = segment words 64 brackets 4 4 4 modes r class 0:0
7 1 4 create_seg >d>y 64 4 4 4 = ok
8 1 4 status >d>y = segment words 64 brackets 4 4 4 modes rw class 0:0
9 1 4 set_iacl_seg >d *.*.* s = refused 13 invalid_mode
10 1 4 del_iacl_dir >d *.*.* = refused 15 no_acl_entry
11 1 4 set_iacl_seg >d>x *.*.* r = refused 4 notadir
12 1 4 logout = ok
";

#[test]
fn two_names_and_a_deletion(rt: HostRuntime) -> Result<(), Fail> {
    let jones = entrant(b"Jones.Faculty.a", b"0:0")?;
    assert_eq!(rt; play(rt.alloc(), 1, &[jones], TWO_NAMES)?, Came::AsTold);
    assert_eq!(rt; play(rt.alloc(), 1, &[jones], USED_AGAIN)?, Came::AsTold);
    Ok(())
}

#[test]
fn a_link_by_each_rule(rt: HostRuntime) -> Result<(), Fail> {
    let jones = entrant(b"Jones.Faculty.a", b"0:0")?;
    assert_eq!(rt; play(rt.alloc(), 1, &[jones], A_LINK)?, Came::AsTold);
    assert_eq!(rt; play(rt.alloc(), 1, &[jones], LIBRARY_FIRST)?, Came::AsTold);
    assert_eq!(rt; play(rt.alloc(), 1, &[jones], NO_DEFINITION)?, Came::AsTold);
    assert_eq!(rt; play(rt.alloc(), 1, &[jones], NO_SEGMENT)?, Came::AsTold);
    Ok(())
}

#[test]
fn a_revocation_told_by_a_message(rt: HostRuntime) -> Result<(), Fail> {
    let smith = entrant(b"Smith.Ops.a", b"0:0")?;
    let jones = entrant(b"Jones.Faculty.a", b"0:0")?;
    assert_eq!(rt;
        play(rt.alloc(), 1, &[smith, jones], REVOKED)?,
        Came::AsTold
    );
    Ok(())
}

#[test]
fn refusals_in_turn(rt: HostRuntime) -> Result<(), Fail> {
    let jones = entrant(b"Jones.Faculty.a", b"0:0")?;
    assert_eq!(rt;
        play(rt.alloc(), 1, &[jones], REFUSED_IN_TURN)?,
        Came::AsTold
    );
    Ok(())
}

#[test]
fn a_class_that_is_raised(rt: HostRuntime) -> Result<(), Fail> {
    let who = entrant(b"A.B.c", b"2:3")?;
    assert_eq!(rt; play(rt.alloc(), 2, &[who], RAISED)?, Came::AsTold);
    Ok(())
}

#[test]
fn what_an_initial_list_gives(rt: HostRuntime) -> Result<(), Fail> {
    let jones = entrant(b"Jones.Faculty.a", b"0:0")?;
    assert_eq!(rt; play(rt.alloc(), 3, &[jones], GIVEN)?, Came::AsTold);
    Ok(())
}
