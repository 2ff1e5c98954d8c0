//! Each call of the inputs and each put fails in turn.
use super::runs::all_end_as_due;
use std::test::Fail;

// The shapes have 196 bytes, the data 41, the first line of the script 48 and the script 55. The first report
// has 99 bytes, the answer 23 and the second report 31.
pub(super) const FIRST_RUN: &str = "\
== shapes
<http://e/S> <http://www.w3.org/ns/shacl#targetNode> <http://e/a> .
<http://e/S> <http://www.w3.org/ns/shacl#path> <http://e/p> .
<http://e/S> <http://www.w3.org/ns/shacl#hasValue> <http://e/b> .
== data
<http://e/a> <http://e/p> <http://e/c> .
== script
insert <http://e/a> <http://e/p> <http://e/b> .
report
== output
report conforms=false results=1
result HasValue Violation <http://e/S> <http://e/a> <http://e/p> -
ok changed evaluated 1
report conforms=true results=0
== status 0
";

// A text is opened, read piece by piece, and its end is read.
const CALLS: &str = "\
== run in pieces of 1 byte
== outside
read bytes 1
put bytes 1
== run in pieces of 7 bytes
== outside
read bytes 7
put bytes 7
== run in pieces of 4096 bytes
== outside
read bytes 4096
put bytes 4096
== run input_faults, the first read fails
== words
shapes
data
== outside
failing call 2
== data
== output
== status 4
== run the calls before the script, in pieces of 1 byte
== outside
read bytes 1
failing call 1
further 240
== output
== status 4
== run the calls before the script, in pieces of 7 bytes
== outside
read bytes 7
failing call 1
further 37
== output
== status 4
== run the calls before the script, in pieces of 4096 bytes
== outside
read bytes 4096
failing call 1
further 5
== output
== status 4
== run the script is opened, and read up to its first line feed, in pieces of 1 byte
== outside
read bytes 1
failing call 242
further 48
== output
report conforms=false results=1
result HasValue Violation <http://e/S> <http://e/a> <http://e/p> -
== status 4
== run the script is opened, and read up to its first line feed, in pieces of 7 bytes
== outside
read bytes 7
failing call 39
further 7
== output
report conforms=false results=1
result HasValue Violation <http://e/S> <http://e/a> <http://e/p> -
== status 4
== run the script is opened, and both lines are read at once
== outside
read bytes 4096
failing call 7
further 1
== output
report conforms=false results=1
result HasValue Violation <http://e/S> <http://e/a> <http://e/p> -
== status 4
== run the second line is read up to its line feed, in pieces of 1 byte
== outside
read bytes 1
failing call 291
further 6
== output
report conforms=false results=1
result HasValue Violation <http://e/S> <http://e/a> <http://e/p> -
ok changed evaluated 1
== status 4
== run the second line is read up to its line feed, in pieces of 7 bytes
== outside
read bytes 7
failing call 47
== output
report conforms=false results=1
result HasValue Violation <http://e/S> <http://e/a> <http://e/p> -
ok changed evaluated 1
== status 4
== run the end of the script is read, in pieces of 1 byte
== outside
read bytes 1
failing call 298
== status 4
== run the end of the script is read, in pieces of 7 bytes
== outside
read bytes 7
failing call 48
== status 4
== run the end of the script is read, in pieces of 4096 bytes
== outside
read bytes 4096
failing call 9
== status 4
== run no further call is made, in pieces of 1 byte
== outside
read bytes 1
failing call 299
== run no further call is made, in pieces of 7 bytes
== outside
read bytes 7
failing call 49
== run no further call is made, in pieces of 4096 bytes
== outside
read bytes 4096
failing call 10
";

// Each report and each answer is put by itself.
const PUTS: &str = "\
== run the puts of 1 byte
== outside
put bytes 1
failing put 1
further 152
== front
report conforms=false results=1
result HasValue Violation <http://e/S> <http://e/a> <http://e/p> -
ok changed evaluated 1
report conforms=true results=0
== status 5
== run the puts of 7 bytes
== outside
put bytes 7
failing put 1
further 23
== front
report conforms=false results=1
result HasValue Violation <http://e/S> <http://e/a> <http://e/p> -
ok changed evaluated 1
report conforms=true results=0
== status 5
== run the puts of 8 bytes
== outside
put bytes 8
failing put 1
further 19
== front
report conforms=false results=1
result HasValue Violation <http://e/S> <http://e/a> <http://e/p> -
ok changed evaluated 1
report conforms=true results=0
== status 5
== run no further put of 1 byte is made
== outside
put bytes 1
failing put 154
== run no further put of 7 bytes is made
== outside
put bytes 7
failing put 25
== run no further put of 8 bytes is made
== outside
put bytes 8
failing put 21
== run no further put of 4096 bytes is made
== outside
put bytes 4096
failing put 4
== run all before the second put of 8 bytes was put
== outside
put bytes 8
failing put 2
== output
report c$
== status 5
== run all before the answer was put
== outside
put bytes 1
failing put 100
== output
report conforms=false results=1
result HasValue Violation <http://e/S> <http://e/a> <http://e/p> -
== status 5
== run all before the second report was put
== outside
put bytes 7
failing put 20
== output
report conforms=false results=1
result HasValue Violation <http://e/S> <http://e/a> <http://e/p> -
ok changed evaluated 1
== status 5
== run all but the last line feed was put
== outside
put bytes 1
failing put 153
== output
report conforms=false results=1
result HasValue Violation <http://e/S> <http://e/a> <http://e/p> -
ok changed evaluated 1
report conforms=true results=0$
== status 5
";

const REFUSED_LINE: &str = "\
== prefixes
@prefix sh: <http://www.w3.org/ns/shacl#> .
@prefix rdf: <http://www.w3.org/1999/02/22-rdf-syntax-ns#> .
@prefix rdfs: <http://www.w3.org/2000/01/rdf-schema#> .
@prefix xsd: <http://www.w3.org/2001/XMLSchema#> .
@prefix e: <http://e/> .
== shapes
e:S sh:targetNode e:a ; sh:path e:p ; sh:minCount 1 .
== script
insert e:a e:p e:b .
insert f:a e:p e:b .
remove e:a e:p e:b .
== output
report conforms=false results=1
result MinCount Violation <http://e/S> <http://e/a> <http://e/p> -
ok changed evaluated 1
refused line 2: 53 UnknownPrefix at 7
ok changed evaluated 1
== status 7
";

const PIECES: &str = "\
== run unknown_prefix_in_a_line, in pieces of 1 byte
== outside
read bytes 1
== run unknown_prefix_in_a_line, in pieces of 7 bytes
== outside
read bytes 7
== run unknown_prefix_in_a_line, in pieces of 4096 bytes
== outside
read bytes 4096
";

#[test]
fn each_call_and_each_put_fails(rt: HostRuntime) -> Result<(), Fail> {
    all_end_as_due(&rt, FIRST_RUN, CALLS)?;
    all_end_as_due(&rt, FIRST_RUN, PUTS)?;
    all_end_as_due(&rt, REFUSED_LINE, PIECES)
}
