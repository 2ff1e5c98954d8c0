//! Graphs that go through steps, a block for each: how many terms its pool may hold, how many triples it may
//! hold, and behind a colon those that it begins with; then the steps, each with its answer.

pub const EDITS: &str = "\
75 2:
+apb → new
+apb → held
+apc → new
+apd → full
+apb → held
len → 2
ap? → b c

76 0:
terms → 75
enter data#5 → 75
enter data#5 → 75
enter data#6 → full
enter data#1 → 66
terms → 76
+apb → full
len → 0

75 12: apx uqx apz spb apr apy rpb aqb apt bpb apb apu
ap? → b r u t z y x
bq? → -
?pb → a b r s
?qy → -
a?? → apb apr apu apt apz apy apx aqb
x?? → -
?p? → apb apr apu apt apz apy apx bpb rpb spb
?a? → -
ap?#0 → 0
ap?#1 → 1
ap?#6 → 6
ap?#7 → 7
ap?#8 → 7
bq?#3 → 0
?pb#0 → 0
?pb#3 → 3
?pb#4 → 4
?pb#9 → 4
?qy#1 → 0
a??#0 → 0
a??#7 → 7
a??#9 → 8
x??#2 → 0
?p?#0 → 0
?p?#9 → 9
?p?#10 → 10
?p?#11 → 10
?a?#1 → 0
!ap#0 → 0
!ap#9 → 0
-bqa → absent
len → 12
a?? → apb apr apu apt apz apy apx aqb
-apr → gone
-apr → absent
apx → true
uqx → true
apz → true
spb → true
apr → false
apy → true
rpb → true
aqb → true
apt → true
bpb → true
apb → true
apu → true
len → 11
terms → 75
a?? → apb apu apt apz apy apx aqb
ap?#9 → 6
a??#9 → 7
+apr → new
a?? → apb apr apu apt apz apy apx aqb

75 5:
-apb → absent
+apb → new
+apd → new
+abp → new
+apb → held
+cpb → new
+apc → new
+qqq → full
+apd → held
+ddd → full
-apd → gone
-apd → absent
+ddd → new
+apq → full
-apb → gone
+pba → new
-pab → absent
-qqq → absent
-ddd → gone
+bpa → new
+bap → full
-abp → gone
-cpb → gone
-apc → gone
-pba → gone
-bpa → gone
len → 0
+apb → new

75 5: cda apq apb
-apb → gone
+apb → new
+apd → new
+abp → new
+apb → held
+cpb → full
+apc → full
+qqq → full
+apd → held
+ddd → full
-apd → gone
-apd → absent
+ddd → new
+apq → held
-apb → gone
+pba → new
-pab → absent
-qqq → absent
-ddd → gone
+bpa → new
+bap → full
-abp → gone
-cpb → absent
-apc → absent
-pba → gone
-bpa → gone
len → 2
+apb → new

75 5: aqd dpb dpc
aq? → d
dp? → b c
?pb → d
d?? → dpb dpc
?p? → dpb dpc
-dpc → gone
dp? → b
+dpc → new
len → 3

75 3: apb apc
exchange apb|apd → done
ap? → c d
exchange apd|apb → done
ap? → b c
exchange |apa apd → full
ap? → b c
exchange apb apc|aqa aqb aqc → done
a?? → aqa aqb aqc
exchange |apb → full
exchange aqa|apb apc → full
exchange aqa aqb|apb apc → done
a?? → apb apc aqc
exchange | → done
len → 3
-apb → gone
+bpx → new
exchange bpx aqc|apb → done
a?? → apb apc
len → 2

75 5:
cut 64: → done
terms → 64
enter data#1 → 64
enter data#1 → 64
terms → 65
len → 0

75 5: rqx sqr sqt
cut 70: rqx sqr sqt → done
terms → 70
len → 3
sq? → r t
?qx → r
s?? → sqr sqt
?q? → rqx sqr sqt
rqx → true
enter e:n → 70
enter e:q → 69
+spr → new
r?? → rqx
s?? → spr sqr sqt
cut 71: spr sqt rqx sqr → done
terms → 71
-spr → gone
cut 70: rqx sqr sqt → done
terms → 70
+rqx → held
+sqx → new
len → 4
enter e:a → 70
enter data#5 → 71
terms → 72

75 2: apb
-apb → gone
cut 62: → done
terms → 62
len → 0
enter e:p → 62
enter 'x' → 63
+xxy → new
+yyx → new
+yyy → full
xx? → y
len → 2";
