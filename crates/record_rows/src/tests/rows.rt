//! Steps and a question about what is recorded after them, with the answer, a row each. A reader is the
//! number of a shape, or those of a shape and of a node; a key is a triple with a line for what it leaves
//! open, or the pair whose answer was read.
use super::steps::is_answered;
use row_tools::all_met;
use std::test::Fail;

const ROWS: &str = "
== nothing is recorded
reads 1 → nothing
reads 1/7 → nothing
touched 1.2.3 →
commit; touched 1.2.3 →
drop; reads 1/7 → nothing

== a key is touched by the triples that it names
stage 1/7 1.2._; commit; touched 1.2.3 → 1/7
stage 1/7 1.2._; commit; touched 1.3.3 →
stage 1/7 1.2._; commit; touched 2.2.3 →
stage 1/7 _.2.3; commit; touched 1.2.3 → 1/7
stage 1/7 _.2.3; commit; touched 1.2.4 →
stage 1/7 _.2.3; commit; touched 3.2.1 →
stage 1/7 1._._; commit; touched 1.5.6 → 1/7
stage 1/7 1._._; commit; touched 5.1.1 →
stage 1/7 _.2._; commit; touched 5.2.6 → 1/7
stage 1/7 _.2._; commit; touched 2.5.2 →
stage 1/7 0.0._; commit; touched 0.0.0 → 1/7
stage 1/7 4294967295.4294967295._; commit; touched 4294967295.4294967295.0 → 1/7

== whoever has read nothing is recorded, and is not touched
stage 1/7; commit; reads 1/7 →
stage 1/7; commit; touched 1.2.3 →

== each once, whichever keys of it are touched
stage 1/7 1.2._ _.2.3 1._._ _.2._; commit; touched 1.2.3 → 1/7
stage 1/7 1.2._ _.2.3 5._._; commit; touched 1.2.3 → 1/7

== targets by their shapes, then pairs by shape and node
stage 2/1 1.2._; stage 3 _.2._; stage 1/4 1._._; stage 0 1.2._; commit; touched 1.2.3 → 0 3 1/4 2/1
stage 1/0 _.2._; stage 1 _.2._; stage 0/4294967295 _.2._; commit; touched 1.2.3 → 1 0/4294967295 1/0
stage 4294967295/4294967295 1._._; commit; touched 1.2.3 → 4294967295/4294967295

== by several triples, added before the bar and removed behind it
load 1/7 1.2._; changed | →
load 1/7 1.2._, 1/8 _.2.4, 2 6._._, 3 _.9._; changed 1.2.3 | 6.5.4 → 2 1/7
load 1/7 1.2._, 1/8 _.2.4, 2 6._._, 3 _.9._; changed | 6.2.4 1.2.3 6.9.4 → 2 3 1/7 1/8
load 1/7 1.2._ _.2._, 1/8 _.2.4 1._._; changed 1.2.3 1.2.4 1.2.5 | 1.2.6 → 1/7 1/8
load 1/7 1.2._; stage 1/8 1.2._; changed 1.2.3 | 1.2.4 → 1/7

== by the answers of pairs, behind a comma
load 1/7 2/9 1.2._; reads 1/7 → 1.2._ 2/9
load 1/7 2/9; changed | →
load 1/7 2/9; changed |, 2/9 → 1/7
load 1/7 2/9; changed |, 2/8 →
load 1/7 2/9; changed |, 3/9 →
load 1/7 2/9; changed |, 9/2 →
load 1/7 4294967295/0, 1 0/4294967295; changed |, 4294967295/0 → 1/7
load 1/7 2/9, 2 2/9, 3 2/8, 1/8 _.2._; changed |, 2/9 → 2 1/7
load 1/7 2/9, 2 2/9, 3 2/8, 1/8 _.2._; changed |, 2/8 2/9 → 2 3 1/7
load 1/7 2/9 2/8 1.2._; changed 1.2.3 |, 2/9 2/8 → 1/7
load 1/7 2/9, 1/8 1.2._, 2 5._._, 3 3/9; changed 1.2.3 | 5.6.7, 2/9 → 2 1/7 1/8
load 1/7 2/9, 1/8 1.2._, 2 5._._, 3 3/9; changed 1.2.3 | 5.6.7 → 2 1/8

== no triple touches an answer, and who is touched leads no further
load 1/7 2/9; touched 2.9.9 →
load 1/7 2/9; changed 2.9.2 | 9.2.9 →
load 1/7 2/9, 2/9 1.2._; touched 1.2.3 → 2/9
load 1/7 2/9, 2/9 3/4; changed |, 3/4 → 2/9

== answers that are recorded, and not those that are staged or went
stage 1/7 2/9; changed |, 2/9 →
stage 1/7 2/9; commit; changed |, 2/9 → 1/7
stage 1/7 2/9; commit; stage 1/7 2/8; changed |, 2/9 → 1/7
stage 1/7 2/9; commit; stage 1/7 2/8; commit; changed |, 2/9 →
stage 1/7 2/9; commit; stage 1/7 2/8; commit; changed |, 2/8 → 1/7
load 1/7 2/9, 1/8 2/9; remove 1/7; commit; changed |, 2/9 → 1/8
stage 1/7 2/9; drop; commit; changed |, 2/9 →

== what is staged shows at the commit alone
stage 1/7 1.2._; reads 1/7 → nothing
stage 1/7 1.2._; touched 1.2.3 →
stage 1/7 1.2._; commit; stage 1/7 5._._; reads 1/7 → 1.2._
stage 1/7 1.2._; commit; stage 1/7 5._._; touched 1.2.3 → 1/7
stage 1/7 1.2._; commit; stage 1/7 5._._; touched 5.2.3 →
stage 1/7 1.2._; commit; remove 1/7; reads 1/7 → 1.2._
stage 1/7 1.2._; commit; remove 1/7; touched 1.2.3 → 1/7

== a new record takes the place of the old one
stage 1/7 1.2._; commit; stage 1/7 5._._; commit; reads 1/7 → 5._._
stage 1/7 1.2._; commit; stage 1/7 5._._; commit; touched 1.2.3 →
stage 1/7 1.2._; commit; stage 1/7 5._._; commit; touched 5.2.3 → 1/7
stage 1/7 1.2._ 5._._; commit; stage 1/7 5._._ _.6._; commit; touched 5.6.3 → 1/7
stage 1/7 1.2._; stage 1/8 1.2._; commit; stage 1/7 5._._; commit; touched 1.2.3 → 1/8

== loaded at once
load 1/7 1.2._; reads 1/7 → 1.2._
load 1/7 1.2._; reads 1 → nothing
load 1/7, 1 _.2.3; reads 1/7 →
load 1/7, 1 _.2.3; touched 1.2.3 → 1
load 2/1 1.2._ 5._._, 1/9 _.2.3, 3 _.2._, 1/4 1._._, 0 1.2._; touched 1.2.3 → 0 3 1/4 1/9 2/1
load 2/1 1.2._ 5._._, 1/9 _.2.3, 3 _.2._, 1/4 1._._, 0 1.2._; touched 5.6.7 → 2/1
load 1/7 1.2._, 1/8 1.2._; stage 1/7 5._._; touched 1.2.3 → 1/7 1/8
load 1/7 1.2._, 1/8 1.2._; stage 1/7 5._._; commit; touched 1.2.3 → 1/8
load 1/7 1.2._; remove 1/7; commit; touched 1.2.3 →
load 1/7 1.2._; commit; drop; reads 1/7 → 1.2._

== a removal
stage 1/7 1.2._; commit; remove 1/7; commit; reads 1/7 → nothing
stage 1/7 1.2._; commit; remove 1/7; commit; touched 1.2.3 →
remove 1/7; commit; reads 1/7 → nothing
stage 1/7 1.2._; stage 1 1.2._; commit; remove 1; commit; touched 1.2.3 → 1/7
stage 1/7 1.2._; commit; remove 1/7; commit; stage 1/7 1.2._; commit; touched 1.2.3 → 1/7

== the last change of a reader wins
stage 1/7 1.2._; stage 1/7 5._._; commit; reads 1/7 → 5._._
stage 1/7 1.2._; stage 1/7 5._._; commit; touched 1.2.3 →
stage 1/7 1.2._; stage 1/7 5._._; stage 1/7 1.2._; commit; touched 1.2.3 → 1/7
stage 1/7 1.2._; remove 1/7; commit; reads 1/7 → nothing
remove 1/7; stage 1/7 1.2._; commit; reads 1/7 → 1.2._
stage 1/7 1.2._; commit; stage 1/7 5._._; stage 1/7 1.2._; commit; touched 1.2.3 → 1/7
stage 1/7 1.2._; commit; remove 1/7; stage 1/7 1.2._; commit; touched 1.2.3 → 1/7

== what is dropped leaves no trace
stage 1/7 1.2._; drop; commit; reads 1/7 → nothing
stage 1/7 1.2._; drop; commit; touched 1.2.3 →
stage 1/7 1.2._; commit; remove 1/7; drop; commit; reads 1/7 → 1.2._
stage 1/7 1.2._; commit; stage 1/7 1.2._ 5._._; drop; touched 1.2.3 → 1/7
stage 1/7 1.2._; commit; stage 1/7 5._._; drop; stage 1/7 6._._; commit; touched 5.2.3 →

== nothing is staged after a commit
stage 1/7 1.2._; commit; remove 1/7; commit; commit; reads 1/7 → nothing
stage 1/7 1.2._; commit; stage 1/7 5._._; commit; drop; reads 1/7 → 5._._
";

#[test]
fn records_are_as_said(rt: HostRuntime) -> Result<(), Fail> {
    all_met(rt.alloc(), ROWS, is_answered)
}
