//! Groups of edits, and changes that are taken back, at the limits of groups and of histories, and at those
//! of the graph.
use super::runs::all_end_as_due;
use std::test::Fail;

const GROUPS: &str = "\
== run group_past_the_limit
== limits
triples 1
== data
<a:s> <a:p> <a:o> .
== script
begin
insert <a:s> <a:p> <a:t> .
commit
remove <a:s> <a:p> <a:o> .
commit
begin
== output
report conforms=true results=0
ok begun
ok queued
refused line 3: 40 TooManyTriples
ok queued
ok changed evaluated 0
ok begun
notice: open group dropped
== status 7
== run as many edits as a group may have, and one more
== limits
group 2
== script
begin
insert <a:s> <a:p> <a:o> .
remove <a:s> <a:p> <a:o> .
insert <a:s> <a:p> <a:q> .
commit
begin
insert <a:s> <a:p> <a:o> .
insert <a:s> <a:p> <a:q> .
report
remove <a:s> <a:p> <a:q> .
commit
count
== output
report conforms=true results=0
ok begun
ok queued
ok queued
refused line 4: 44 GroupTooLong
ok unchanged evaluated 0
ok begun
ok queued
ok queued
report conforms=true results=0
refused line 10: 44 GroupTooLong
ok changed evaluated 0
count triples=2 pairs=0 results=0
== status 7
== run a group of one edit, and single edits behind it
== limits
group 1
== script
begin
insert <a:s> <a:p> <a:o> .
insert <a:s> <a:p> <a:q> .
abandon
insert <a:s> <a:p> <a:q> .
count
== output
report conforms=true results=0
ok begun
ok queued
refused line 3: 44 GroupTooLong
ok abandoned
ok changed evaluated 0
count triples=1 pairs=0 results=0
== status 7
== run the limit of triples holds for what a group comes to
== limits
triples 2
== data
<a:s> <a:p> <a:o> , <a:q> .
== script
begin
insert <a:s> <a:p> <a:r> .
insert <a:s> <a:p> <a:t> .
insert <a:s> <a:p> <a:u> .
remove <a:s> <a:p> <a:r> .
remove <a:s> <a:p> <a:o> .
remove <a:s> <a:p> <a:q> .
commit
count
== output
report conforms=true results=0
ok begun
ok queued
ok queued
ok queued
ok queued
ok queued
ok queued
ok changed evaluated 0
count triples=2 pairs=0 results=0
== status 0
== run the limit of terms holds for what a group adds
== limits
terms 65
== script
begin
insert <a:x> <a:y> <a:z> .
remove <a:x> <a:y> <a:z> .
insert <a:s> <a:p> <a:o> .
insert <a:o> <a:p> <a:s> .
commit
begin
insert <a:s> <a:p> <a:q> .
insert <a:p> <a:s> <a:o> .
commit
remove <a:s> <a:p> <a:q> .
commit
count
== output
report conforms=true results=0
ok begun
ok queued
ok queued
ok queued
ok queued
ok changed evaluated 0
ok begun
ok queued
ok queued
refused line 10: 41 TooManyTerms
ok queued
ok changed evaluated 0
count triples=3 pairs=0 results=0
== status 7
== run triples before terms, in a group
== limits
triples 1
terms 65
== script
begin
insert <a:s> <a:p> <a:o> .
insert <a:s> <a:p> <a:q> .
commit
remove <a:s> <a:p> <a:o> .
insert <a:q> <a:r> <a:q> .
remove <a:s> <a:p> <a:q> .
commit
abandon
insert <a:s> <a:p> <a:o> .
remove <a:s> <a:p> <a:o> .
insert <a:q> <a:r> <a:q> .
== output
report conforms=true results=0
ok begun
ok queued
ok queued
refused line 4: 40 TooManyTriples
ok queued
ok queued
ok queued
ok changed evaluated 0
refused line 9: 43 NoGroup
refused line 10: 40 TooManyTriples
ok unchanged evaluated 0
ok unchanged evaluated 0
== status 7
== run a group that is open where the script is too long
== limits
script 6
== script
begin
begin
== output
report conforms=true results=0
ok begun
fault script: 58 ScriptTooLong
== status 3
== run a group that is open at the end, in Turtle and in pieces of a byte
== words
--format=turtle
shapes
data
script
== outside
read bytes 1
== script
begin
insert <a:s> <a:p> <a:o> .
undo$
== output
@prefix sh: <http://www.w3.org/ns/shacl#> .
[] a sh:ValidationReport ;
  sh:conforms true .
# ok begun
# ok queued
# refused line 3: 42 GroupOpen
# notice: open group dropped
== status 7
";

const HISTORIES: &str = "\
== run history_limit
== limits
history 2
== script
insert <a:s> <a:p> <a:o> .
insert <a:s> <a:p> <a:q> .
insert <a:s> <a:p> <a:r> .
undo
undo
undo
count
== output
report conforms=true results=0
ok changed evaluated 0
ok changed evaluated 0
ok changed evaluated 0
ok changed evaluated 0
ok changed evaluated 0
refused line 6: 46 NothingToUndo
count triples=1 pairs=0 results=0
== status 7
== run a history of one change
== limits
history 1
== script
undo
insert <a:s> <a:p> <a:o> .
insert <a:s> <a:p> <a:q> .
undo
undo
redo
redo
undo
insert <a:s> <a:p> <a:r> .
redo
undo
count
== output
report conforms=true results=0
refused line 1: 46 NothingToUndo
ok changed evaluated 0
ok changed evaluated 0
ok changed evaluated 0
refused line 5: 46 NothingToUndo
ok changed evaluated 0
refused line 7: 47 NothingToRedo
ok changed evaluated 0
ok changed evaluated 0
refused line 10: 47 NothingToRedo
ok changed evaluated 0
count triples=1 pairs=0 results=0
== status 7
== run neither limit of the graph refuses what is taken back or made again
== limits
triples 2
terms 66
== data
<a:s> <a:p> <a:o> , <a:q> .
== script
remove <a:s> <a:p> <a:o> .
insert <a:q> <a:p> <a:s> .
insert <a:q> <a:p> <a:r> .
undo
undo
undo
redo
redo
redo
begin
remove <a:q> <a:p> <a:s> .
insert <a:o> <a:p> <a:o> .
commit
undo
redo
count
== output
report conforms=true results=0
ok changed evaluated 0
ok changed evaluated 0
refused line 3: 40 TooManyTriples
ok changed evaluated 0
ok changed evaluated 0
refused line 6: 46 NothingToUndo
ok changed evaluated 0
ok changed evaluated 0
refused line 9: 47 NothingToRedo
ok begun
ok queued
ok queued
ok changed evaluated 0
ok changed evaluated 0
ok changed evaluated 0
count triples=2 pairs=0 results=0
== status 7
";

#[test]
fn groups_and_histories_within_limits(rt: HostRuntime) -> Result<(), Fail> {
    all_end_as_due(&rt, "", GROUPS)?;
    all_end_as_due(&rt, "", HISTORIES)
}
