//! A table, worked out from the standards by hand. A term is written as `term` of `row_tools` reads it.

/// Claims, one a line. Of a literal: that it `is` a value, as that is shown, with a fraction in parts of 10
/// to the 38, and a moment or a day in nanoseconds from 1970; or that it is `wide`, or a `float`, and its
/// value is not held. Of two terms: that the first is `less` than the second, `equal` to it, `greater`, or
/// `apart` from it; the runs of the program have more of these. Of a count and a term: that so many are
/// `fewer`, `more`, or `neither`, or that the term is `wide`.
pub(super) const CLAIMS: &str = "== values: numbers
'0'^^integer|is|Num { negative: false, whole: 0, fraction: 0 }
'5'^^integer|is|Num { negative: false, whole: 5, fraction: 0 }
'+5'^^integer|is|Num { negative: false, whole: 5, fraction: 0 }
'-5'^^integer|is|Num { negative: true, whole: 5, fraction: 0 }
'007'^^integer|is|Num { negative: false, whole: 7, fraction: 0 }
'-0'^^integer|is|Num { negative: false, whole: 0, fraction: 0 }
'+0'^^integer|is|Num { negative: false, whole: 0, fraction: 0 }
'-000'^^integer|is|Num { negative: false, whole: 0, fraction: 0 }
''^^integer|is|IllTyped
'1.0'^^integer|is|IllTyped
'10000000000000000000000000000000000000'^^integer|is|Num { negative: false, whole: 10000000000000000000000000000000000000, fraction: 0 }
'99999999999999999999999999999999999999'^^integer|is|Num { negative: false, whole: 99999999999999999999999999999999999999, fraction: 0 }
'-99999999999999999999999999999999999999'^^integer|is|Num { negative: true, whole: 99999999999999999999999999999999999999, fraction: 0 }
'0000000000000000000000000000000000000000'^^integer|is|Num { negative: false, whole: 0, fraction: 0 }
'000000000000000000000000000000000000000099999999999999999999999999999999999999'^^integer|is|Num { negative: false, whole: 99999999999999999999999999999999999999, fraction: 0 }
'100000000000000000000000000000000000000'^^integer|is|wide
'5'^^decimal|is|Num { negative: false, whole: 5, fraction: 0 }
'5.'^^decimal|is|Num { negative: false, whole: 5, fraction: 0 }
'.5'^^decimal|is|Num { negative: false, whole: 0, fraction: 50000000000000000000000000000000000000 }
'+.5'^^decimal|is|Num { negative: false, whole: 0, fraction: 50000000000000000000000000000000000000 }
'-.5'^^decimal|is|Num { negative: true, whole: 0, fraction: 50000000000000000000000000000000000000 }
'-5.'^^decimal|is|Num { negative: true, whole: 5, fraction: 0 }
'.'^^decimal|is|IllTyped
'-0.0'^^decimal|is|Num { negative: false, whole: 0, fraction: 0 }
'-0'^^decimal|is|Num { negative: false, whole: 0, fraction: 0 }
'-.0'^^decimal|is|Num { negative: false, whole: 0, fraction: 0 }
'0.1'^^decimal|is|Num { negative: false, whole: 0, fraction: 10000000000000000000000000000000000000 }
'0.1000000000000000000000000000000000000000000000000000000000000'^^decimal|is|Num { negative: false, whole: 0, fraction: 10000000000000000000000000000000000000 }
'00012.3400'^^decimal|is|Num { negative: false, whole: 12, fraction: 34000000000000000000000000000000000000 }
'-12.34'^^decimal|is|Num { negative: true, whole: 12, fraction: 34000000000000000000000000000000000000 }
'0.00000000000000000000000000000000000001'^^decimal|is|Num { negative: false, whole: 0, fraction: 1 }
'-0.00000000000000000000000000000000000001'^^decimal|is|Num { negative: true, whole: 0, fraction: 1 }
'0.000000000000000000000000000000000000001'^^decimal|is|wide
'99999999999999999999999999999999999999.99999999999999999999999999999999999999'^^decimal|is|Num { negative: false, whole: 99999999999999999999999999999999999999, fraction: 99999999999999999999999999999999999999 }
'0.000000000000000000000000000000000000000000000000000000000000'^^decimal|is|Num { negative: false, whole: 0, fraction: 0 }
'000000000000000000000000000000000000000000000000000000000000.000000000000000000000000000000000000000000000000000000000000'^^decimal|is|Num { negative: false, whole: 0, fraction: 0 }
'-99999999999999999999999999999999999999'^^nonPositiveInteger|is|Num { negative: true, whole: 99999999999999999999999999999999999999, fraction: 0 }
'0'^^nonPositiveInteger|is|Num { negative: false, whole: 0, fraction: 0 }
'-99999999999999999999999999999999999999'^^negativeInteger|is|Num { negative: true, whole: 99999999999999999999999999999999999999, fraction: 0 }
'-1'^^negativeInteger|is|Num { negative: true, whole: 1, fraction: 0 }
'0'^^nonNegativeInteger|is|Num { negative: false, whole: 0, fraction: 0 }
'99999999999999999999999999999999999999'^^nonNegativeInteger|is|Num { negative: false, whole: 99999999999999999999999999999999999999, fraction: 0 }
'1'^^positiveInteger|is|Num { negative: false, whole: 1, fraction: 0 }
'99999999999999999999999999999999999999'^^positiveInteger|is|Num { negative: false, whole: 99999999999999999999999999999999999999, fraction: 0 }
'-9223372036854775808'^^long|is|Num { negative: true, whole: 9223372036854775808, fraction: 0 }
'9223372036854775807'^^long|is|Num { negative: false, whole: 9223372036854775807, fraction: 0 }
'-2147483648'^^int|is|Num { negative: true, whole: 2147483648, fraction: 0 }
'2147483647'^^int|is|Num { negative: false, whole: 2147483647, fraction: 0 }
'-32768'^^short|is|Num { negative: true, whole: 32768, fraction: 0 }
'32767'^^short|is|Num { negative: false, whole: 32767, fraction: 0 }
'-128'^^byte|is|Num { negative: true, whole: 128, fraction: 0 }
'127'^^byte|is|Num { negative: false, whole: 127, fraction: 0 }
'128'^^byte|is|IllTyped
'0'^^unsignedLong|is|Num { negative: false, whole: 0, fraction: 0 }
'18446744073709551615'^^unsignedLong|is|Num { negative: false, whole: 18446744073709551615, fraction: 0 }
'0'^^unsignedInt|is|Num { negative: false, whole: 0, fraction: 0 }
'4294967295'^^unsignedInt|is|Num { negative: false, whole: 4294967295, fraction: 0 }
'0'^^unsignedShort|is|Num { negative: false, whole: 0, fraction: 0 }
'65535'^^unsignedShort|is|Num { negative: false, whole: 65535, fraction: 0 }
'0'^^unsignedByte|is|Num { negative: false, whole: 0, fraction: 0 }
'255'^^unsignedByte|is|Num { negative: false, whole: 255, fraction: 0 }
'5'^^byte|is|Num { negative: false, whole: 5, fraction: 0 }
'+127'^^byte|is|Num { negative: false, whole: 127, fraction: 0 }
'-0'^^unsignedByte|is|Num { negative: false, whole: 0, fraction: 0 }
'-0'^^nonPositiveInteger|is|Num { negative: false, whole: 0, fraction: 0 }
'00000000255'^^unsignedByte|is|Num { negative: false, whole: 255, fraction: 0 }
== values: truth values, texts, and types whose values are not known
'111111111111111111111111111111111111111'|is|Text
'true'^^boolean|is|Bool(true)
'1'^^boolean|is|Bool(true)
'false'^^boolean|is|Bool(false)
'0'^^boolean|is|Bool(false)
'TRUE'^^boolean|is|IllTyped
''|is|Text
'a'|is|Text
'12'|is|Text
'a'@en|is|Opaque
'1'^^double|is|float
'INF'^^float|is|float
'1'^^http://e/integer|is|Opaque
'P1D'^^duration|is|Opaque
== values: moments and days
'1970-01-01T00:00:00'^^dateTime|is|Stamp { nanos: 0, zoned: false }
'1970-01-01T00:00:00Z'^^dateTime|is|Stamp { nanos: 0, zoned: true }
'1970-01-01T00:00:01Z'^^dateTime|is|Stamp { nanos: 1000000000, zoned: true }
'1969-12-31T23:59:59Z'^^dateTime|is|Stamp { nanos: -1000000000, zoned: true }
'1970-01-02T00:00:00'^^dateTime|is|Stamp { nanos: 86400000000000, zoned: false }
'2020-01-01T00:00:00'^^dateTime|is|Stamp { nanos: 1577836800000000000, zoned: false }
'2000-02-29T12:34:56.789Z'^^dateTime|is|Stamp { nanos: 951827696789000000, zoned: true }
'2000-03-01T00:00:00'^^dateTime|is|Stamp { nanos: 951868800000000000, zoned: false }
'0000-01-01T00:00:00'^^dateTime|is|Stamp { nanos: -62167219200000000000, zoned: false }
'0001-01-01T00:00:00'^^dateTime|is|Stamp { nanos: -62135596800000000000, zoned: false }
'-0001-12-31T23:59:59'^^dateTime|is|Stamp { nanos: -62167219201000000000, zoned: false }
'9999-12-31T23:59:59.999999999'^^dateTime|is|Stamp { nanos: 253402300799999999999, zoned: false }
'-9999-01-01T00:00:00'^^dateTime|is|Stamp { nanos: -377705116800000000000, zoned: false }
'9999-12-31T24:00:00'^^dateTime|is|Stamp { nanos: 253402300800000000000, zoned: false }
'-9999-01-01T00:00:00+14:00'^^dateTime|is|Stamp { nanos: -377705167200000000000, zoned: true }
'9999-12-31T24:00:00-14:00'^^dateTime|is|Stamp { nanos: 253402351200000000000, zoned: true }
'2020-02-28T24:00:00.0'^^dateTime|is|Stamp { nanos: 1582934400000000000, zoned: false }
'2020-12-31T24:00:00.000Z'^^dateTime|is|Stamp { nanos: 1609459200000000000, zoned: true }
'2016-12-31T23:59:60Z'^^dateTime|is|IllTyped
'2020-01-01T00:00:00.5'^^dateTime|is|Stamp { nanos: 1577836800500000000, zoned: false }
'2020-01-01T00:00:00.123456789'^^dateTime|is|Stamp { nanos: 1577836800123456789, zoned: false }
'2020-01-01T00:00:00.1234567890'^^dateTime|is|Stamp { nanos: 1577836800123456789, zoned: false }
'2020-01-01T00:00:00.1234567891'^^dateTime|is|wide
'2020-01-01T00:00:00.0000000000000000000000000000000000000000'^^dateTime|is|Stamp { nanos: 1577836800000000000, zoned: false }
'2020-01-01T00:00:00.10000000000000000000000000000000000000000-05:30'^^dateTime|is|Stamp { nanos: 1577856600100000000, zoned: true }
'2020-06-15T12:00:00+13:59'^^dateTime|is|Stamp { nanos: 1592172060000000000, zoned: true }
'2020-06-15T12:00:00-13:59'^^dateTime|is|Stamp { nanos: 1592272740000000000, zoned: true }
'2020-06-15T12:00:00+14:00'^^dateTime|is|Stamp { nanos: 1592172000000000000, zoned: true }
'2020-06-15T12:00:00-14:00'^^dateTime|is|Stamp { nanos: 1592272800000000000, zoned: true }
'2020-06-15T12:00:00+00:00'^^dateTime|is|Stamp { nanos: 1592222400000000000, zoned: true }
'2020-06-15T12:00:00-00:00'^^dateTime|is|Stamp { nanos: 1592222400000000000, zoned: true }
'2020-06-15T12:00:00+05:30'^^dateTime|is|Stamp { nanos: 1592202600000000000, zoned: true }
'2020-01-01'^^dateTime|is|IllTyped
'2021-02-29T00:00:00'^^dateTime|is|IllTyped
'1970-01-01'^^date|is|Day { nanos: 0, zoned: false }
'1970-01-01Z'^^date|is|Day { nanos: 0, zoned: true }
'2020-01-01'^^date|is|Day { nanos: 1577836800000000000, zoned: false }
'2020-01-01+14:00'^^date|is|Day { nanos: 1577786400000000000, zoned: true }
'2020-01-01-14:00'^^date|is|Day { nanos: 1577887200000000000, zoned: true }
'0000-02-29'^^date|is|Day { nanos: -62162121600000000000, zoned: false }
'-0004-02-29'^^date|is|Day { nanos: -62288352000000000000, zoned: false }
'1900-02-28'^^date|is|Day { nanos: -2203977600000000000, zoned: false }
'1900-02-29'^^date|is|IllTyped
'2000-02-29'^^date|is|Day { nanos: 951782400000000000, zoned: false }
'2020-06-30'^^date|is|Day { nanos: 1593475200000000000, zoned: false }
'2020-12-31'^^date|is|Day { nanos: 1609372800000000000, zoned: false }
'9999-12-31'^^date|is|Day { nanos: 253402214400000000000, zoned: false }
'-9999-01-01'^^date|is|Day { nanos: -377705116800000000000, zoned: false }
'12020-01-01'^^date|is|wide
== orders: numbers, texts and truth values
'1'^^integer|less|'2'^^integer
'10'^^integer|greater|'9'^^integer
'1.0'^^decimal|equal|'01'^^integer
'-0.1'^^decimal|less|'0'^^integer
'a'|less|'b'
'ab'|greater|'a'
''|equal|''
'1'^^boolean|equal|'true'^^boolean
'0'^^boolean|less|'true'^^boolean
== orders: moments and days
'2020-01-01T12:00:00Z'^^dateTime|equal|'2020-01-01T13:00:00+01:00'^^dateTime
'2020-01-02T00:00:00'^^dateTime|apart|'2020-01-02T00:00:00Z'^^dateTime
'2020-01-01T00:00:00'^^dateTime|less|'2020-01-01T15:00:00Z'^^dateTime
'2020-01-01Z'^^date|equal|'2020-01-01+00:00'^^date
'2020-01-02Z'^^date|greater|'2020-01-01'^^date
'2020-01-01'^^date|apart|'2020-01-01T00:00:00'^^dateTime
== orders: values of different kinds, and those that have no order
'1'^^integer|apart|'1'
'128'^^byte|apart|'128'^^byte
'a'@en|apart|'a'@en
'1'^^integer|apart|'1'^^double
'1'^^double|apart|'1'^^double
'1'^^double|apart|'2'^^double
'1'^^float|apart|'2'^^float
== orders: terms that are no literals
e:a|apart|e:a
e:a|apart|'1'^^integer
'a'|apart|e:a
data#1|apart|data#1
== counts
0|fewer|'1'^^integer
1|neither|'1'^^integer
2|more|'1'^^integer
0|fewer|'01'^^integer
1|neither|'01'^^integer
2|fewer|'+3'^^integer
3|neither|'+3'^^integer
4|more|'+3'^^integer
10|more|'9'^^integer
9|fewer|'10'^^integer
0|neither|'0'^^integer
0|neither|'-0'^^integer
1|more|'-0'^^integer
0|more|'-1'^^integer
1|more|'-1'^^integer
2|fewer|'2.5'^^decimal
3|more|'2.5'^^decimal
2|neither|'2.0'^^decimal
1|neither|'1.'^^decimal
0|fewer|'.5'^^decimal
1|more|'.5'^^decimal
0|more|'-0.5'^^decimal
0|neither|'-0.0'^^decimal
0|fewer|'0.00000000000000000000000000000000000001'^^decimal
0|more|'-0.00000000000000000000000000000000000001'^^decimal
1|fewer|'1.99999999999999999999999999999999999999'^^decimal
2|more|'1.99999999999999999999999999999999999999'^^decimal
18446744073709551614|fewer|'18446744073709551615'^^unsignedLong
18446744073709551615|neither|'18446744073709551615'^^unsignedLong
18446744073709551615|fewer|'18446744073709551615.5'^^decimal
18446744073709551615|more|'18446744073709551614.5'^^decimal
18446744073709551615|fewer|'18446744073709551616'^^integer
18446744073709551615|fewer|'99999999999999999999999999999999999999'^^integer
18446744073709551615|more|'-99999999999999999999999999999999999999'^^integer
126|fewer|'127'^^byte
5|neither|'128'^^byte
5|neither|'-1'^^nonNegativeInteger
5|neither|'1.0'^^integer
5|neither|'9.0'^^integer
5|neither|'x'^^integer
5|neither|''^^integer
5|neither|'3'
5|neither|'9'
5|neither|'3'@en
5|neither|'3'^^double
5|neither|'9'^^http://e/integer
5|neither|'1'^^boolean
5|neither|'2020-01-01'^^date
5|neither|'1970-01-01T00:00:00Z'^^dateTime
5|neither|e:3
5|neither|<9>
0|neither|data#1
5|neither|data#1
5|wide|'111111111111111111111111111111111111111'^^integer
5|wide|'0.000000000000000000000000000000000000001'^^decimal
";
