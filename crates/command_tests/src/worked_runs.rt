//! What no clause says of replays over associations: more whole runs with ample memory. Each is the
//! beginning of a worked case of a model of the rules that was written apart from this project: its
//! transcript up to there, and both ends up, as the case leaves them.

use crate::associations::replays;
use std::test::*;

/// What a run shows, its schedule and its transcript.
const RUNS: [(&str, &str, &str); 3] = [
    (
        "marks count from 1, and again from where a restart went back to; and the result of an operation whose argument has another type",
        "mode direct
context 9 der
A open
carry A all
carry B all
carry A all
carry B all
A mark
carry A all
A please 1
carry B all
B give
B mark
A give
B give
A resync 1
B mark
B mark
A mark
carry A all
B give
B give
B mark
B mark
B give
A give
A give
A give
carry A 32
carry B 132
B give
A mark
B invoke 9 store ''H
carry A 157
B mark
B mark
B give
carry A 79
carry A 20
B mark
A give
B give
B mark
carry B all
B mark
carry A all
A answer 1 NULL
carry A 133
",
        "mode direct
1 A open
  ok
2 carry A all
  A>B 03 00 00 16 11 E0 00 00 00 01 00 C0 01 0A C1 02 00 01 C2 02 00 01
3 carry B all
  B>A 03 00 00 0E 09 D0 00 01 00 02 00 C0 01 0A
4 carry A all
  A>B 03 00 00 6F 02 F0 80 0D 66 05 09 13 01 00 16 01 02 17 01 31 14 02 04 2A 33 02 00 01 34 02 00 01 C1 4D 31 4B A0 03 80 01 01 A2 44 81 02 00 01 82 02 00 01 A4 23 30 0F 02 01 01 06 04 52 01 00 01 30 04 06 02 51 01 30 10 02 01 09 06 04 88 37 07 01 30 05 06 03 51 02 01 88 02 06 C0 61 11 30 0F 02 01 01 A0 0A 60 08 A1 06 06 04 88 37 05 03
  B: opened
5 carry B all
  B>A 03 00 00 5F 02 F0 80 0E 56 05 09 13 01 00 16 01 02 17 01 31 14 02 04 2A C1 45 31 43 A0 03 80 01 01 A2 3C 83 02 00 01 A5 13 30 07 80 01 00 81 02 51 01 30 08 80 01 00 81 03 51 02 01 88 02 06 C0 61 1D 30 1B 02 01 01 A0 16 61 14 A1 06 06 04 88 37 05 03 A2 03 02 01 00 A3 05 A1 03 02 01 00
  A: opened
6 A mark
  ok
7 carry A all
  A>B 03 00 00 0E 02 F0 80 01 00 31 03 2A 01 31
  B: mark 1
8 A please 1
  refused HasTurn
9 carry B all
  B>A
10 B give
  refused NoTurn
11 B mark
  refused NoTurn
12 A give
  ok
13 B give
  refused NoTurn
14 A resync 1
  ok
15 B mark
  refused NoTurn
16 B mark
  refused NoTurn
17 A mark
  refused Waiting
18 carry A all
  A>B 03 00 00 0C 02 F0 80 01 03 10 01 04 03 00 00 2A 02 F0 80 01 00 35 1F 1B 01 00 2A 01 31 C1 17 30 15 A0 13 30 07 02 01 01 06 02 51 01 30 08 02 01 09 06 03 51 02 01
  B: turn
  B: restarted 1
19 B give
  refused NoTurn
20 B give
  refused NoTurn
21 B mark
  refused NoTurn
22 B mark
  refused NoTurn
23 B give
  refused NoTurn
24 A give
  refused Waiting
25 A give
  refused Waiting
26 A give
  refused Waiting
27 carry A 32
  A>B
28 carry B 132
  B>A 03 00 00 27 02 F0 80 01 00 22 1C 2A 01 31 C1 17 30 15 A0 13 30 07 02 01 01 06 02 51 01 30 08 02 01 09 06 03 51 02 01
  A: restarted 1
29 B give
  refused NoTurn
30 A mark
  ok
31 B invoke 9 store ''H
  ok 1
32 carry A 157
  A>B 03 00 00 0E 02 F0 80 01 00 31 03 2A 01 31
  B: mark 1
33 B mark
  refused NoTurn
34 B mark
  refused NoTurn
35 B give
  refused NoTurn
36 carry A 79
  A>B
37 carry A 20
  A>B
38 B mark
  refused NoTurn
39 A give
  ok
40 B give
  refused NoTurn
41 B mark
  refused NoTurn
42 carry B all
  B>A 03 00 00 1E 02 F0 80 01 00 01 00 61 11 30 0F 02 01 09 A0 0A A1 08 02 01 01 02 01 02 04 00
  A: invoked 1 store ''H
43 B mark
  refused NoTurn
44 carry A all
  A>B 03 00 00 0C 02 F0 80 01 03 10 01 04
  B: turn
45 A answer 1 NULL
  ok
46 carry A 133
  A>B 03 00 00 20 02 F0 80 01 00 01 00 61 13 30 11 02 01 09 A0 0C A2 0A 02 01 01 30 05 02 01 02 05 00
  B: result 1 NULL
end A up
end B up
",
    ),
    (
        "invocations that are linked: a restart cuts them at both ends, each in front of the one that it is linked to",
        "mode direct
context 7 der packed
A open
carry A all
carry B all
carry A all
carry B all
A refuse 3 overflow 8
carry A all
carry A all
carry A all
carry B all
carry B all
carry A all
carry B all
carry A all
carry A all
B give
carry A all
A give
carry A all
A give
carry B all
carry B all
A mark
carry B all
carry A all
carry A all
A refuse 3 overflow 6
carry A all
carry B all
A invoke 7 add 4
carry A all
A refuse 1 overflow 3
carry B all
carry A all
carry A all
carry B 81
B please 1
carry B all
carry A all
carry A all
carry B all
carry B all
carry A all
A invoke 7 add 4
B invoke 7 add 3
carry B all
A invoke 7 ask 1 linked 1
A give
carry A all
A invoke 7 ask 6 linked 1
B invoke 7 ask 5 linked 2
B invoke 7 note \"x\"
carry A 143
B alter add 4 packed der add 2 ber delete 1
B give
carry B all
carry A all
carry A 72
carry B all
carry A 26
B mark
A resync 1
carry A all
A invoke 7 ask 2
carry B all
",
        "mode direct
1 A open
  ok
2 carry A all
  A>B 03 00 00 16 11 E0 00 00 00 01 00 C0 01 0A C1 02 00 01 C2 02 00 01
3 carry B all
  B>A 03 00 00 0E 09 D0 00 01 00 02 00 C0 01 0A
4 carry A all
  A>B 03 00 00 75 02 F0 80 0D 6C 05 09 13 01 00 16 01 02 17 01 31 14 02 04 2A 33 02 00 01 34 02 00 01 C1 53 31 51 A0 03 80 01 01 A2 4A 81 02 00 01 82 02 00 01 A4 29 30 0F 02 01 01 06 04 52 01 00 01 30 04 06 02 51 01 30 16 02 01 07 06 04 88 37 07 01 30 0B 06 03 51 02 01 06 04 88 37 05 01 88 02 06 C0 61 11 30 0F 02 01 01 A0 0A 60 08 A1 06 06 04 88 37 05 03
  B: opened
5 carry B all
  B>A 03 00 00 5F 02 F0 80 0E 56 05 09 13 01 00 16 01 02 17 01 31 14 02 04 2A C1 45 31 43 A0 03 80 01 01 A2 3C 83 02 00 01 A5 13 30 07 80 01 00 81 02 51 01 30 08 80 01 00 81 03 51 02 01 88 02 06 C0 61 1D 30 1B 02 01 01 A0 16 61 14 A1 06 06 04 88 37 05 03 A2 03 02 01 00 A3 05 A1 03 02 01 00
  A: opened
6 A refuse 3 overflow 8
  refused NoInvocation 3
7 carry A all
  A>B
8 carry A all
  A>B
9 carry A all
  A>B
10 carry B all
  B>A
11 carry B all
  B>A
12 carry A all
  A>B
13 carry B all
  B>A
14 carry A all
  A>B
15 carry A all
  A>B
16 B give
  refused NoTurn
17 carry A all
  A>B
18 A give
  ok
19 carry A all
  A>B 03 00 00 0C 02 F0 80 01 03 10 01 04
  B: turn
20 A give
  refused NoTurn
21 carry B all
  B>A
22 carry B all
  B>A
23 A mark
  refused NoTurn
24 carry B all
  B>A
25 carry A all
  A>B
26 carry A all
  A>B
27 A refuse 3 overflow 6
  refused NoInvocation 3
28 carry A all
  A>B
29 carry B all
  B>A
30 A invoke 7 add 4
  ok 1
31 carry A all
  A>B 03 00 00 1F 02 F0 80 01 00 01 00 61 12 30 10 02 01 07 A0 0B A1 09 02 01 01 02 01 01 02 01 04
  B: invoked 1 add 4
32 A refuse 1 overflow 3
  refused NoInvocation 1
33 carry B all
  B>A
34 carry A all
  A>B
35 carry A all
  A>B
36 carry B 81
  B>A
37 B please 1
  refused HasTurn
38 carry B all
  B>A
39 carry A all
  A>B
40 carry A all
  A>B
41 carry B all
  B>A
42 carry B all
  B>A
43 carry A all
  A>B
44 A invoke 7 add 4
  ok 2
45 B invoke 7 add 3
  ok 1
46 carry B all
  B>A 03 00 00 1F 02 F0 80 01 00 01 00 61 12 30 10 02 01 07 A0 0B A1 09 02 01 01 02 01 01 02 01 03
  A: invoked 1 add 3
47 A invoke 7 ask 1 linked 1
  ok 3
48 A give
  refused NoTurn
49 carry A all
  A>B 03 00 00 1F 02 F0 80 01 00 01 00 61 12 30 10 02 01 07 A0 0B A1 09 02 01 02 02 01 01 02 01 04 03 00 00 22 02 F0 80 01 00 01 00 61 15 30 13 02 01 07 A0 0E A1 0C 02 01 03 80 01 01 02 01 03 02 01 01
  B: invoked 2 add 4
  B: invoked 3 ask 1 linked 1
50 A invoke 7 ask 6 linked 1
  ok 4
51 B invoke 7 ask 5 linked 2
  ok 2
52 B invoke 7 note \"x\"
  ok 3
53 carry A 143
  A>B 03 00 00 22 02 F0 80 01 00 01 00 61 15 30 13 02 01 07 A0 0E A1 0C 02 01 04 80 01 01 02 01 03 02 01 06
  B: invoked 4 ask 6 linked 1
54 B alter add 4 packed der add 2 ber delete 1
  refused Fixed 1
55 B give
  ok
56 carry B all
  B>A 03 00 00 22 02 F0 80 01 00 01 00 61 15 30 13 02 01 07 A0 0E A1 0C 02 01 02 80 01 02 02 01 03 02 01 05 03 00 00 1F 02 F0 80 01 00 01 00 61 12 30 10 02 01 07 A0 0B A1 09 02 01 03 02 01 04 16 01 78 03 00 00 0C 02 F0 80 01 03 10 01 04
  A: invoked 2 ask 5 linked 2
  A: invoked 3 note \"x\"
  A: turn
57 carry A all
  A>B
58 carry A 72
  A>B
59 carry B all
  B>A
60 carry A 26
  A>B
61 B mark
  refused NoTurn
62 A resync 1
  ok
63 carry A all
  A>B 03 00 00 2A 02 F0 80 01 00 35 1F 1B 01 00 2A 01 31 C1 17 30 15 A0 13 30 07 02 01 01 06 02 51 01 30 08 02 01 07 06 03 51 02 01
  B: cut peer 1
  B: cut peer 3
  B: cut peer 4
  B: cut own 1
  B: cut own 2
  B: cut peer 2
  B: restarted 1
64 A invoke 7 ask 2
  refused Waiting
65 carry B all
  B>A 03 00 00 27 02 F0 80 01 00 22 1C 2A 01 31 C1 17 30 15 A0 13 30 07 02 01 01 06 02 51 01 30 08 02 01 07 06 03 51 02 01
  A: cut own 1
  A: cut peer 2
  A: cut own 2
  A: cut own 3
  A: cut own 4
  A: cut peer 1
  A: restarted 1
end A up
end B up
",
    ),
    (
        "breaks and recoveries: a transfer whose confirmation was lost comes again and is handed up once, and the one that waited behind it follows",
        "mode reliable 1 1
context 9 packed
context 7 der ber
context 5 packed der
accepts A packed
accepts B packed
A open
carry A all
carry B all
carry A all
carry B all
carry B all
B give
carry B all
A give
A give
A invoke 5 ask 6
carry A all
carry B 109
carry A all
B give
carry B all
B answer 1 3
carry A all
A invoke 5 store ''H
A answer 1 1
A alter add 7 packed delete 5
A alter delete 1
B give
B alter add 4 packed der delete 3
A discard
carry A all
break
A recover
break
A recover
carry B 33
break
A alter add 7 der packed delete 3
A recover
carry A all
break
A alter add 7 ber der delete 1
A recover
carry A 23
carry B 200
carry A 42
carry A 109
carry B all
carry B all
carry B all
break
A invoke 5 note \"xxxxxxxxxxxxxxxxxxxxxxxxxxxxxxxxxxxxxxxxxxxxxxxxxxxxxxxxxxxxxxxxxxxxxxxxxxxxxxxxxxxxxxxxxxxxxxxxxxxxxxxxxxxxxxxxxxxxxxxxxxxxxxxxxxxxxxxxxxxxxxxxxxxxxxxxxxxxxxxxxxxxxxxxxxxxxxxxxxxxxxxxxxxxxxxxxxxxxxxxxxxxxxxxxxxxxxxxxxxxxxxxxxxxxxxxxxxxxxxxxxxxxxxxxxxxxxxxxxxxxxxxxxxxxxxxxxxxxxxxxxxxxxxxxxxxxxxxxxxxxxxxxxxxxxxxxxxxxxxxxxxxxxxxxxxxxxxxxxxxxxxxxxxxxxxxxxxxxxxxxxxxxxxxxxxxxxxxxxxxxxxxxxxxxxxxxxxxxxxxxxxxxxxxxxxxxxxxxxxxxxxxxxxxxxxxxxxxxxxxxxxxxxxxxxxxxxxxxxxxxxxxxxxxxxxxxxxxxxxxxxxxxxxxxxxxxxxxxxxxxxxxxxxxxxxxxxxxxxxxxxxxxxxxxxxxxxxxxxxxxxxxxxxxxxxxxxxxxxxxxxxxxxxxxxxxxxxxxxxxxxxxxxxxxxxxxxxxxxxxxxxxxxxxxxxxxxxxxxxxxxxxxxxxxxxxxxxxxxxxxxxxxxxxxxxxxxxxxxxxxxxxxxxxxxxxxxxxxxxxxxxxxxxxxxxxxxxxxxxxxxxxxxxxxxxxxxxxxxxxxxxxxxxxxxxxxxxxxxxxxxxxxxxxxxxxxxxxxxxxxxxxxxxxxxxxxxxxxxxxxxxxxxxxxxxxxxxxxxxxxxxxxxxxxxxxxxxxxxxxxxxxxxxxxxxxxxxxxxxxxxxxxxxxxxxxxxxxxxxxxxxxxxxxxxxxxxxxxxxxxxxxxxxxxxxxxxxxxxxxxxxxxxxxxxxxxxxxxxxxxxxxxxxxxxxxxxxxxxxxxxxxxxxxxxxxxxxxxxxxxxxxxxxxxxxxxxxxxxxxxxxxxxxxxxxxxxxxxxxxxxxxxxxxxxxxxxxxxxxxxxxxxxxxxxxxxxxxxxxxxxxxxxxxxxxxxxxxxxxxxxxxxxxxxxxxxxxxxxxxxxxxxxxxxxxxxxxxxxxxxxxxxxxxxxxxxxxxxxxxxxxxxxxxxxxxxxxxxxxxxxxxxxxxxxxxxxxxxxxxxxxxxxxxxxxxxxxxxxxxxxxxxxxxxxxxxxxxxxxxxxxxxxxxxxxxxxxxxxxxxxxxxxxxxxxxxxxxxxxxxxxxxxxxxxxxxxxxxxxxxxxxxxxxxxxxxxxxxxxxxxxxxxxxxxxxxxxxxxxxxxxxxxxxxxxxxxxxxxxxxxxxxxxxxxxxxxxxxxxxxxxxxxxxxxxxxxxxxxxxxxxxxxxxxxxxxxxxxxxxxxxxxxxxxxxxxxxxxxxxxxxxxxxxxxxxxxxxxxxxxxxxxxxxxxxxxxxxxxxxxxxxxxxxxxxxxxxxxxxxxxxxxxxxxxxxxxxxxxxxxxxxxxxxxxxxxxxxxxxx\"
A recover
carry B 123
carry A all
carry B 100
carry B 72
break
A give
A give
A recover
A give
carry A 183
carry A 160
carry A 14
carry B 153
carry B all
carry A 46
carry A all
A give
carry B 154
A alter add 11 packed
break
A recover
carry B all
A alter delete 9
carry A all
break
A invoke 9 store ''H
A discard
B invoke 5 ask 9
A recover
carry A all
carry B all
carry A 160
carry B all
carry A all
carry B 167
A resume
A answer 1 9
carry A 45
A alter add 9 ber packed delete 3
A alter add 7 packed
B alter add 4 der delete 3
A discard
carry A 91
A discard
A invoke 9 store ''H
carry B all
A give
carry A 44
A give
B alter add 6 packed der delete 3
carry A all
carry B all
",
        "mode reliable
1 A open
  ok
2 carry A all
  A>B 03 00 00 16 11 E0 00 00 00 01 00 C0 01 0A C1 02 00 01 C2 02 00 01
3 carry B all
  B>A 03 00 00 0E 09 D0 00 01 00 02 00 C0 01 0A
4 carry A all
  A>B 03 00 00 DF 02 F0 80 0D D6 01 15 0A 04 72 65 66 31 0B 0D 32 36 30 31 30 31 30 30 30 30 30 30 5A 05 06 13 01 00 16 01 02 14 02 04 49 33 02 00 01 34 02 00 01 C1 A9 31 81 A6 A0 03 80 01 01 A2 81 9E 81 02 00 01 82 02 00 01 A4 63 30 0F 02 01 01 06 04 52 01 00 01 30 04 06 02 51 01 30 0F 02 01 03 06 04 88 37 05 02 30 04 06 02 51 01 30 11 02 01 09 06 04 88 37 07 01 30 06 06 04 88 37 05 01 30 14 02 01 07 06 04 88 37 07 01 30 09 06 03 51 02 01 06 02 51 01 30 16 02 01 05 06 04 88 37 07 01 30 0B 06 04 88 37 05 01 06 03 51 02 01 88 02 06 C0 61 2B 30 29 02 01 01 A0 24 60 22 A1 06 06 04 88 37 05 04 BE 18 28 16 02 01 03 A0 11 B0 0F 80 01 01 81 01 01 82 01 01 A3 04 A0 02 05 00
  B: opened
5 carry B all
  B>A 03 00 00 90 02 F0 80 0E 87 05 06 13 01 00 16 01 02 14 02 04 49 C1 79 31 77 A0 03 80 01 01 A2 70 83 02 00 01 A5 30 30 07 80 01 00 81 02 51 01 30 07 80 01 00 81 02 51 01 30 09 80 01 00 81 04 88 37 05 01 30 06 80 01 02 82 01 02 30 09 80 01 00 81 04 88 37 05 01 88 02 06 C0 61 34 30 32 02 01 01 A0 2D 61 2B A1 06 06 04 88 37 05 04 A2 03 02 01 00 A3 05 A1 03 02 01 00 BE 15 28 13 02 01 03 A0 0E B1 0C 80 01 01 81 01 01 A2 04 A0 02 05 00
  A: opened
6 carry B all
  B>A
7 B give
  refused NoTurn
8 carry B all
  B>A
9 A give
  ok
10 A give
  refused NoTurn
11 A invoke 5 ask 6
  ok 1
12 carry A all
  A>B 03 00 00 09 02 F0 80 15 00
  B: turn
13 carry B 109
  B>A 03 00 00 09 02 F0 80 16 00
14 carry A all
  A>B
15 B give
  ok
16 carry B all
  B>A 03 00 00 09 02 F0 80 15 00
  A: turn
17 B answer 1 3
  refused NoInvocation 1
18 carry A all
  A>B 03 00 00 09 02 F0 80 16 00 03 00 00 0E 02 F0 80 01 00 2D 03 29 01 31 03 00 00 27 02 F0 80 01 00 01 00 61 1A 30 18 02 01 03 A0 13 04 11 30 0F 02 01 05 81 0A 01 01 01 00 00 01 03 01 01 06 03 00 00 0E 02 F0 80 01 00 29 03 2A 01 31
  B: invoked 1 ask 6
19 A invoke 5 store ''H
  ok 2
20 A answer 1 1
  refused NoInvocation 1
21 A alter add 7 packed delete 5
  refused Ending 1
22 A alter delete 1
  refused Ending 1
23 B give
  refused NoTurn
24 B alter add 4 packed der delete 3
  refused NoTurn
25 A discard
  refused Ending 1
26 carry A all
  A>B
27 break
28 A recover
  ok
29 break
30 A recover
  ok
31 carry B 33
  B>A
32 break
33 A alter add 7 der packed delete 3
  refused WrongPhase
34 A recover
  ok
35 carry A all
  A>B 03 00 00 16 11 E0 00 00 00 01 00 C0 01 0A C1 02 00 01 C2 02 00 01
36 break
37 A alter add 7 ber der delete 1
  refused WrongPhase
38 A recover
  ok
39 carry A 23
  A>B 03 00 00 16 11 E0 00 00 00 01 00 C0 01 0A C1 02 00 01 C2 02 00 01
40 carry B 200
  B>A 03 00 00 0E 09 D0 00 01 00 02 00 C0 01 0A
41 carry A 42
  A>B 03 00 00 F2 02 F0 80 0D E9 01 15 0A 04 72 65 66 31 0B 0D 32 36 30 31 30 31 30 30 30 30 30 30 5A 05 06 13 01 00 16 01 02 14 02
42 carry A 109
  A>B 04 49 33 02 00 01 34 02 00 01 C1 BC 31 81 B9 A0 03 80 01 01 A2 81 B1 81 02 00 01 82 02 00 01 A4 63 30 0F 02 01 01 06 04 52 01 00 01 30 04 06 02 51 01 30 0F 02 01 03 06 04 88 37 05 02 30 04 06 02 51 01 30 11 02 01 09 06 04 88 37 07 01 30 06 06 04 88 37 05 01 30 14 02 01 07 06 04 88 37 07 01 30 09 06 03 51 02 01 06 02 51 01 30
43 carry B all
  B>A
44 carry B all
  B>A
45 carry B all
  B>A
46 break
47 A invoke 5 note \"xxxxxxxxxxxxxxxxxxxxxxxxxxxxxxxxxxxxxxxxxxxxxxxxxxxxxxxxxxxxxxxxxxxxxxxxxxxxxxxxxxxxxxxxxxxxxxxxxxxxxxxxxxxxxxxxxxxxxxxxxxxxxxxxxxxxxxxxxxxxxxxxxxxxxxxxxxxxxxxxxxxxxxxxxxxxxxxxxxxxxxxxxxxxxxxxxxxxxxxxxxxxxxxxxxxxxxxxxxxxxxxxxxxxxxxxxxxxxxxxxxxxxxxxxxxxxxxxxxxxxxxxxxxxxxxxxxxxxxxxxxxxxxxxxxxxxxxxxxxxxxxxxxxxxxxxxxxxxxxxxxxxxxxxxxxxxxxxxxxxxxxxxxxxxxxxxxxxxxxxxxxxxxxxxxxxxxxxxxxxxxxxxxxxxxxxxxxxxxxxxxxxxxxxxxxxxxxxxxxxxxxxxxxxxxxxxxxxxxxxxxxxxxxxxxxxxxxxxxxxxxxxxxxxxxxxxxxxxxxxxxxxxxxxxxxxxxxxxxxxxxxxxxxxxxxxxxxxxxxxxxxxxxxxxxxxxxxxxxxxxxxxxxxxxxxxxxxxxxxxxxxxxxxxxxxxxxxxxxxxxxxxxxxxxxxxxxxxxxxxxxxxxxxxxxxxxxxxxxxxxxxxxxxxxxxxxxxxxxxxxxxxxxxxxxxxxxxxxxxxxxxxxxxxxxxxxxxxxxxxxxxxxxxxxxxxxxxxxxxxxxxxxxxxxxxxxxxxxxxxxxxxxxxxxxxxxxxxxxxxxxxxxxxxxxxxxxxxxxxxxxxxxxxxxxxxxxxxxxxxxxxxxxxxxxxxxxxxxxxxxxxxxxxxxxxxxxxxxxxxxxxxxxxxxxxxxxxxxxxxxxxxxxxxxxxxxxxxxxxxxxxxxxxxxxxxxxxxxxxxxxxxxxxxxxxxxxxxxxxxxxxxxxxxxxxxxxxxxxxxxxxxxxxxxxxxxxxxxxxxxxxxxxxxxxxxxxxxxxxxxxxxxxxxxxxxxxxxxxxxxxxxxxxxxxxxxxxxxxxxxxxxxxxxxxxxxxxxxxxxxxxxxxxxxxxxxxxxxxxxxxxxxxxxxxxxxxxxxxxxxxxxxxxxxxxxxxxxxxxxxxxxxxxxxxxxxxxxxxxxxxxxxxxxxxxxxxxxxxxxxxxxxxxxxxxxxxxxxxxxxxxxxxxxxxxxxxxxxxxxxxxxxxxxxxxxxxxxxxxxxxxxxxxxxxxxxxxxxxxxxxxxxxxxxxxxxxxxxxxxxxxxxxxxxxxxxxxxxxxxxxxxxxxxxxxxxxxxxxxxxxxxxxxxxxxxxxxxxxxxxxxxxxxxxxxxxxxxxxxxxxxxxxxxxxxxxxxxxxxxxxxxxxxxxxxxxxxxxxxxxxxxxxxxxxxxxxxxxxxxxxxxxxxxxxxxxxxxxxxxxxxxxxxxxxxxxxxxxxxxxxxxxxxxxxxxxxxxxxxxxxxxxxxxxxxxxxxxxxxxxxxxxxxxxxxxxxxxxxxxxxxxxxxxxxxxxxxxxxxxxxxxxxxxxxxxxxxxxxxx\"
  refused WrongPhase
48 A recover
  ok
49 carry B 123
  B>A
50 carry A all
  A>B 03 00 00 16 11 E0 00 00 00 01 00 C0 01 0A C1 02 00 01 C2 02 00 01
51 carry B 100
  B>A 03 00 00 0E 09 D0 00 01 00 02 00 C0 01 0A
52 carry B 72
  B>A
53 break
54 A give
  refused WrongPhase
55 A give
  refused WrongPhase
56 A recover
  ok
57 A give
  refused WrongPhase
58 carry A 183
  A>B 03 00 00 16 11 E0 00 00 00 01 00 C0 01 0A C1 02 00 01 C2 02 00 01
59 carry A 160
  A>B
60 carry A 14
  A>B
61 carry B 153
  B>A 03 00 00 0E 09 D0 00 01 00 02 00 C0 01 0A
62 carry B all
  B>A
63 carry A 46
  A>B 03 00 00 F2 02 F0 80 0D E9 01 15 0A 04 72 65 66 31 0B 0D 32 36 30 31 30 31 30 30 30 30 30 30 5A 05 06 13 01 00 16 01 02 14 02 04 49 33 02
64 carry A all
  A>B 00 01 34 02 00 01 C1 BC 31 81 B9 A0 03 80 01 01 A2 81 B1 81 02 00 01 82 02 00 01 A4 63 30 0F 02 01 01 06 04 52 01 00 01 30 04 06 02 51 01 30 0F 02 01 03 06 04 88 37 05 02 30 04 06 02 51 01 30 11 02 01 09 06 04 88 37 07 01 30 06 06 04 88 37 05 01 30 14 02 01 07 06 04 88 37 07 01 30 09 06 03 51 02 01 06 02 51 01 30 16 02 01 05 06 04 88 37 07 01 30 0B 06 04 88 37 05 01 06 03 51 02 01 88 02 06 C0 61 3E 30 3C 02 01 01 A0 37 60 35 A1 06 06 04 88 37 05 04 BE 2B 28 29 02 01 03 A0 24 B0 22 80 01 01 81 01 01 82 01 01 A3 17 A1 15 04 04 72 65 66 31 17 0D 32 36 30 31 30 31 30 30 30 30 30 30 5A
  B: recovered
65 A give
  refused WrongPhase
66 carry B 154
  B>A 03 00 00 A5 02 F0 80 0E 9C 05 06 13 01 00 16 01 02 14 02 04 49 C1 8E 31 81 8B A0 03 80 01 01 A2 81 83 83 02 00 01 A5 30 30 07 80 01 00 81 02 51 01 30 07 80 01 00 81 02 51 01 30 09 80 01 00 81 04 88 37 05 01 30 06 80 01 02 82 01 02 30 09 80 01 00 81 04 88 37 05 01 88 02 06 C0 61 47 30 45 02 01 01 A0 40 61 3E A1 06 06 04 88 37 05 04 A2 03 02 01 00 A3 05 A1 03 02 01 00 BE 28 28 26 02 01 03 A0 21 B1 1F 80 01 01 81 01 01 A2 17 A1 15 04 04 72 65 66 31 17 0D 32 36
67 A alter add 11 packed
  refused WrongPhase
68 break
69 A recover
  ok
70 carry B all
  B>A
71 A alter delete 9
  refused WrongPhase
72 carry A all
  A>B 03 00 00 16 11 E0 00 00 00 01 00 C0 01 0A C1 02 00 01 C2 02 00 01
73 break
74 A invoke 9 store ''H
  refused WrongPhase
75 A discard
  refused WrongPhase
76 B invoke 5 ask 9
  refused WrongPhase
77 A recover
  ok
78 carry A all
  A>B 03 00 00 16 11 E0 00 00 00 01 00 C0 01 0A C1 02 00 01 C2 02 00 01
79 carry B all
  B>A 03 00 00 0E 09 D0 00 01 00 02 00 C0 01 0A
80 carry A 160
  A>B 03 00 00 F2 02 F0 80 0D E9 01 15 0A 04 72 65 66 31 0B 0D 32 36 30 31 30 31 30 30 30 30 30 30 5A 05 06 13 01 00 16 01 02 14 02 04 49 33 02 00 01 34 02 00 01 C1 BC 31 81 B9 A0 03 80 01 01 A2 81 B1 81 02 00 01 82 02 00 01 A4 63 30 0F 02 01 01 06 04 52 01 00 01 30 04 06 02 51 01 30 0F 02 01 03 06 04 88 37 05 02 30 04 06 02 51 01 30 11 02 01 09 06 04 88 37 07 01 30 06 06 04 88 37 05 01 30 14 02 01 07 06 04 88 37 07 01 30 09 06 03 51 02 01 06 02 51 01 30 16 02 01 05 06 04 88 37 07
81 carry B all
  B>A
82 carry A all
  A>B 01 30 0B 06 04 88 37 05 01 06 03 51 02 01 88 02 06 C0 61 3E 30 3C 02 01 01 A0 37 60 35 A1 06 06 04 88 37 05 04 BE 2B 28 29 02 01 03 A0 24 B0 22 80 01 01 81 01 01 82 01 01 A3 17 A1 15 04 04 72 65 66 31 17 0D 32 36 30 31 30 31 30 30 30 30 30 30 5A
  B: recovered
83 carry B 167
  B>A 03 00 00 A5 02 F0 80 0E 9C 05 06 13 01 00 16 01 02 14 02 04 49 C1 8E 31 81 8B A0 03 80 01 01 A2 81 83 83 02 00 01 A5 30 30 07 80 01 00 81 02 51 01 30 07 80 01 00 81 02 51 01 30 09 80 01 00 81 04 88 37 05 01 30 06 80 01 02 82 01 02 30 09 80 01 00 81 04 88 37 05 01 88 02 06 C0 61 47 30 45 02 01 01 A0 40 61 3E A1 06 06 04 88 37 05 04 A2 03 02 01 00 A3 05 A1 03 02 01 00 BE 28 28 26 02 01 03 A0 21 B1 1F 80 01 01 81 01 01 A2 17 A1 15 04 04 72 65 66 31 17 0D 32 36 30 31 30 31 30 30 30 30 30 30 5A
  A: recovered
84 A resume
  ok
85 A answer 1 9
  refused NoInvocation 1
86 carry A 45
  A>B 03 00 00 16 02 F0 80 01 00 1D 0B 21 06 29 01 31 2A 01 30 29 01 31 03 00 00 27 02 F0 80 01 00 01 00 61 1A 30 18 02 01 03 A0 13 04 11 30
  B: resumed 1 0
87 A alter add 9 ber packed delete 3
  refused Ending 1
88 A alter add 7 packed
  refused Ending 1
89 B alter add 4 der delete 3
  refused NoTurn
90 A discard
  refused Ending 1
91 carry A 91
  A>B 0F 02 01 05 81 0A 01 01 01 00 00 01 03 01 01 06 03 00 00 0E 02 F0 80 01 00 29 03 2A 01 31
92 A discard
  refused Ending 1
93 A invoke 9 store ''H
  ok 3
94 carry B all
  B>A 03 00 00 0E 02 F0 80 01 00 2A 03 2A 01 31
  A: transferred 1
95 A give
  refused ActivityOpen 2
96 carry A 44
  A>B 03 00 00 0E 02 F0 80 01 00 2D 03 29 01 32 03 00 00 29 02 F0 80 01 00 01 00 61 1C 30 1A 02 01 03 A0 15 04 13 30 11 02 01 05 81 0C 01
97 A give
  refused ActivityOpen 2
98 B alter add 6 packed der delete 3
  refused NoTurn
99 carry A all
  A>B 01 02 00 00 01 02 01 00 00 00 00 03 00 00 0E 02 F0 80 01 00 29 03 2A 01 31
  B: invoked 2 store ''H
100 carry B all
  B>A 03 00 00 0E 02 F0 80 01 00 2A 03 2A 01 31
  A: transferred 2
end A up
end B up
",
    ),
];

#[test]
fn replays_worked_runs(rt: HostRuntime) {
    for (shows, schedule, transcript) in &RUNS {
        assert!(rt; replays(&rt, rt.alloc(), schedule, transcript), "{shows}");
    }
}
