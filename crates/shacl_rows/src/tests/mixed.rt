//! Each call of the inputs and each put fails in turn, in a run of whose script the lines are of each kind.
use super::runs::all_end_as_due;
use std::test::Fail;

// In pieces of 16 bytes the shapes take ten calls, the data seven, the script twelve and the text that it
// loads fourteen, in pieces of 4,096 bytes each three. The output has 516 bytes.
const RUN: &str = r#"== prefixes
@prefix sh: <http://www.w3.org/ns/shacl#> .
@prefix e: <http://e/> .
== shapes
e:S sh:targetNode e:a ; sh:path e:p ; sh:minCount 1 .
== more
e:S sh:targetNode e:a ; sh:path e:p ; sh:minCount 2 .
e:T sh:targetNode e:b ; sh:path e:p ; sh:minCount 1 .
== script
begin
insert e:a e:p e:b .
insert e:a e:p e:c .
commit
slice e:S e:a
undo
redo
begin
shapes "more"
abandon
shapes "more"
report
insert f:a e:p e:b .
== output
report conforms=false results=1
result MinCount Violation <http://e/S> <http://e/a> <http://e/p> -
ok begun
ok queued
ok queued
ok changed evaluated 1
slice triples=2
triple <http://e/a> <http://e/p> <http://e/b>
triple <http://e/a> <http://e/p> <http://e/c>
ok changed evaluated 1
ok changed evaluated 1
ok begun
refused line 9: 42 GroupOpen
ok abandoned
ok shapes evaluated 2
report conforms=false results=1
result MinCount Violation <http://e/T> <http://e/b> <http://e/p> -
refused line 13: 53 UnknownPrefix at 7
== status 7
"#;

const FAILURES: &str = r#"== run in pieces of 1 byte
== outside
read bytes 1
put bytes 1
== run each call but the last fails, in pieces of 16 bytes
== outside
read bytes 16
failing call 1
further 41
== front
== status 4
== run the last call fails, in pieces of 16 bytes
== outside
read bytes 16
failing call 43
== status 4
== run no further call is made, in pieces of 16 bytes
== outside
read bytes 16
failing call 44
== run the text that is loaded cannot be read, in pieces of 4,096 bytes
== outside
read bytes 4096
failing call 9
further 2
== output
report conforms=false results=1
result MinCount Violation <http://e/S> <http://e/a> <http://e/p> -
ok begun
ok queued
ok queued
ok changed evaluated 1
slice triples=2
triple <http://e/a> <http://e/p> <http://e/b>
triple <http://e/a> <http://e/p> <http://e/c>
ok changed evaluated 1
ok changed evaluated 1
ok begun
refused line 9: 42 GroupOpen
ok abandoned
== status 4
== run each put of 1 byte fails
== outside
put bytes 1
failing put 1
further 515
== front
== status 5
== run no further put of 1 byte is made
== outside
put bytes 1
failing put 517
"#;

#[test]
fn each_call_and_each_put_fails_at_each_kind_of_line(rt: HostRuntime) -> Result<(), Fail> {
    all_end_as_due(&rt, RUN, FAILURES)
}
