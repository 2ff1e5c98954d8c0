//! Changes of graphs: words of triples that are added and removed.

/// Of each row the triples of a graph, those that are added to it, those that are removed, a question, and
/// its answer.
pub const PATCHED: &str = "\
apc apb bpc aqb cqb: ||ap?|b c
apc apb bpc aqb cqb: ||?pc|a b
apc apb bpc aqb cqb: ||a??|apb apc aqb
apc apb bpc aqb cqb: ||?p?|apb apc bpc
apc apb bpc aqb cqb: ||len|5
apc apb bpc aqb cqb: ||apb|true
apc apb bpc aqb cqb: ||apd|false
apc apb bpc aqb cqb: apa apd||ap?|a b c d
apc apb bpc aqb cqb: apa apd||a??|apa apb apc apd aqb
apc apb bpc aqb cqb: apa apd||?p?|apa apb apc apd bpc
apc apb bpc aqb cqb: apa apd||len|7
apc apb bpc aqb cqb: apa apd||apd|true
apc apb bpc aqb cqb: apa apd||apb|true
apc apb bpc aqb cqb: cpc dpc||?pc|a b c d
apc apb bpc aqb cqb: |apb|ap?|c
apc apb bpc aqb cqb: |apb|?pb|-
apc apb bpc aqb cqb: |apb|a??|apc aqb
apc apb bpc aqb cqb: |apb|?p?|apc bpc
apc apb bpc aqb cqb: |apb|len|4
apc apb bpc aqb cqb: |apb|apb|false
apc apb bpc aqb cqb: |apb|apc|true
apc apb bpc aqb cqb: |apb aqb|?qb|c
apc apb bpc aqb cqb: |apb apc aqb|a??|-
apc apb bpc aqb cqb: apa|apc|ap?|a b
apc apb bpc aqb cqb: apa|apb apc|ap?|a
apc apb bpc aqb cqb: apd|apb|a??|apc apd aqb
apc apb bpc aqb cqb: dpc|apc|?pc|b d
apc apb bpc aqb cqb: cpa|bpc|?p?|apb apc cpa
apc apb bpc aqb cqb: apd|apb|len|5
apc apb bpc aqb cqb: apd|apb|apd|true
apc apb bpc aqb cqb: apd|apb|apb|false
apc apb bpc aqb cqb: bqd|cqb|ap?|b c
apc apb bpc aqb cqb: bqd|cqb|?pc|a b
apc apb bpc aqb cqb: bqd|cqb|a??|apb apc aqb
apc apb bpc aqb cqb: bqd|cqb|?p?|apb apc bpc
apc apb bpc aqb cqb: bqd|cqb|?qb|a
apc apb bpc aqb cqb: bqd|cqb|b??|bpc bqd
apc apb bpc aqb cqb: |bpc|ap?|b c
apc apb bpc aqb cqb: |apc|?pc|b
apc apb bpc aqb cqb: apa|apb|!ap#9|0
apc apb bpc aqb cqb: dqd||dq?|d
apc apb bpc aqb cqb: dqd||d??|dqd
apc apb bpc aqb cqb: |cqb|c??|-";

/// The same with triples that come first, in the middle and last of what is found.
pub const PLACES: &str = "\
apx upd apu dpd apd bpd apb aqb: ||ap?|b d u x
apx upd apu dpd apd bpd apb aqb: apa||ap?|a b d u x
apx upd apu dpd apd bpd apb aqb: apc||ap?|b c d u x
apx upd apu dpd apd bpd apb aqb: apy||ap?|b d u y x
apx upd apu dpd apd bpd apb aqb: |apb|ap?|d u x
apx upd apu dpd apd bpd apb aqb: |apd|ap?|b u x
apx upd apu dpd apd bpd apb aqb: |apu|ap?|b d x
apx upd apu dpd apd bpd apb aqb: |apx|ap?|b d u
apx upd apu dpd apd bpd apb aqb: |apb apd apu apx|ap?|-
apx upd apu dpd apd bpd apb aqb: apa apt|apb apx|ap?|a d u t
apx upd apu dpd apd bpd apb aqb: apz|apx|ap?|b d u z
apx upd apu dpd apd bpd apb aqb: ||?pd|a b d u
apx upd apu dpd apd bpd apb aqb: cpd||?pd|a b c d u
apx upd apu dpd apd bpd apb aqb: tpd||?pd|a b d u t
apx upd apu dpd apd bpd apb aqb: |apd|?pd|b d u
apx upd apu dpd apd bpd apb aqb: |bpd|?pd|a d u
apx upd apu dpd apd bpd apb aqb: |upd|?pd|a b d
apx upd apu dpd apd bpd apb aqb: tpd cpd|apd dpd|?pd|b c u t
apx upd apu dpd apd bpd apb aqb: ||a??|apb apd apu apx aqb
apx upd apu dpd apd bpd apb aqb: apa||a??|apa apb apd apu apx aqb
apx upd apu dpd apd bpd apb aqb: apc||a??|apb apc apd apu apx aqb
apx upd apu dpd apd bpd apb aqb: aqc||a??|apb apd apu apx aqb aqc
apx upd apu dpd apd bpd apb aqb: aqa||a??|apb apd apu apx aqa aqb
apx upd apu dpd apd bpd apb aqb: |apb|a??|apd apu apx aqb
apx upd apu dpd apd bpd apb aqb: |apu|a??|apb apd apx aqb
apx upd apu dpd apd bpd apb aqb: |aqb|a??|apb apd apu apx
apx upd apu dpd apd bpd apb aqb: abx|aqb|a??|abx apb apd apu apx
apx upd apu dpd apd bpd apb aqb: ||?p?|apb apd apu apx bpd dpd upd
apx upd apu dpd apd bpd apb aqb: apa||?p?|apa apb apd apu apx bpd dpd upd
apx upd apu dpd apd bpd apb aqb: cpa||?p?|apb apd apu apx bpd cpa dpd upd
apx upd apu dpd apd bpd apb aqb: upx||?p?|apb apd apu apx bpd dpd upd upx
apx upd apu dpd apd bpd apb aqb: |apb|?p?|apd apu apx bpd dpd upd
apx upd apu dpd apd bpd apb aqb: |bpd|?p?|apb apd apu apx dpd upd
apx upd apu dpd apd bpd apb aqb: |upd|?p?|apb apd apu apx bpd dpd
apx upd apu dpd apd bpd apb aqb: bqd aqc|aqb|ap?|b d u x
apx upd apu dpd apd bpd apb aqb: bqd aqc|aqb|?pd|a b d u
apx upd apu dpd apd bpd apb aqb: bqd aqc|aqb|d??|dpd
apx upd apu dpd apd bpd apb aqb: bqd aqc|aqb|?p?|apb apd apu apx bpd dpd upd
apx upd apu dpd apd bpd apb aqb: bqd aqc|aqb|?b?|-";

/// Of each row how many triples a graph may hold, its triples, those that are removed, those that are added,
/// and how that ends.
pub const CHANGES: &str = "\
9: apc apb bpc aqb cqb: ||done
9: apc apb bpc aqb cqb: |apa|done
9: apc apb bpc aqb cqb: apb||done
9: apc apb bpc aqb cqb: apb|apd|done
9: apc apb bpc aqb cqb: cqb apc|apd cqd dpx|done
9: apc apb bpc aqb cqb: apb apc aqb bpc cqb|aqa|done
9: apc apb bpc aqb cqb: apb apc aqb bpc cqb||done
5: apc apb bpc aqb cqb: ||done
5: apc apb bpc aqb cqb: apb|apd|done
5: apc apb bpc aqb cqb: bpc cqb|dpa apd|done
5: apc apb bpc aqb cqb: apb apc aqb bpc cqb|dpa dpb dpc dpd dqa|done
5: apc apb bpc aqb cqb: |apd|full
5: apc apb bpc aqb cqb: apb|apd apa|full
5: apc apb bpc aqb cqb: apc bpc cqb|dpa dpb dpc dpd|full
5: apc apb bpc aqb cqb: apb apc aqb bpc cqb|dpa dpb dpc dpd dqa dqb|full
0: : ||done
0: : |apb|full
1: : |apb|done
1: : |apb apc|full
1: apb: apb|apc|done
1: apb: |apc|full
2: apb: |apc apd|full
3: apb: |apc apd|done";
