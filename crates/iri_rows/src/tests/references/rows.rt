//! References, each before an arrow with what it resolves to, or `refused`; and texts with their bases.

/// Over the base of the standard.
pub const WORKED: &str = "\
g→http://a/b/c/g
../g→http://a/b/g
../../../g→http://a/g
?y→http://a/b/c/d;p?y
→http://a/b/c/d;p?q
//g→http://g
g;x=1/../y→http://a/b/c/y
http://x/../y→http://x/../y
1a:b→http://a/b/c/1a:b
:b→http://a/b/c/:b
a/b:c→http://a/b/c/a/b:c
?→http://a/b/c/d;p?
#→http://a/b/c/d;p?q#
//→http://
?#→http://a/b/c/d;p?#
//?#→http://?#
é/./\u{10ffff}→http://a/b/c/é/\u{10ffff}";

/// The examples of RFC 3986, sections 5.4.1 and 5.4.2, in their order. `g:h` and `http:g` have a scheme and
/// stand for themselves, as the standard has them for strict readers.
pub const STANDARD: &str = "\
g:h→g:h
g→http://a/b/c/g
./g→http://a/b/c/g
g/→http://a/b/c/g/
/g→http://a/g
//g→http://g
?y→http://a/b/c/d;p?y
g?y→http://a/b/c/g?y
#s→http://a/b/c/d;p?q#s
g#s→http://a/b/c/g#s
g?y#s→http://a/b/c/g?y#s
;x→http://a/b/c/;x
g;x→http://a/b/c/g;x
g;x?y#s→http://a/b/c/g;x?y#s
→http://a/b/c/d;p?q
.→http://a/b/c/
./→http://a/b/c/
..→http://a/b/
../→http://a/b/
../g→http://a/b/g
../..→http://a/
../../→http://a/
../../g→http://a/g
../../../g→http://a/g
../../../../g→http://a/g
/./g→http://a/g
/../g→http://a/g
g.→http://a/b/c/g.
.g→http://a/b/c/.g
g..→http://a/b/c/g..
..g→http://a/b/c/..g
./../g→http://a/b/g
./g/.→http://a/b/c/g/
g/./h→http://a/b/c/g/h
g/../h→http://a/b/c/h
g;x=1/./y→http://a/b/c/g;x=1/y
g;x=1/../y→http://a/b/c/y
g?y/./x→http://a/b/c/g?y/./x
g?y/../x→http://a/b/c/g?y/../x
g#s/./x→http://a/b/c/g#s/./x
g#s/../x→http://a/b/c/g#s/../x
http:g→http:g";

/// Characters that a reference may not have.
pub const REFUSED: &str = "\
a b→refused
<→refused
>→refused
\"→refused
a:{→refused
}→refused
?|→refused
#^→refused
\\→refused
//`→refused
\0→refused
\u{1f}→refused";

/// Bases, each with a reference and what it resolves to.
pub const OTHER_BASES: &str = "\
file:///→x→file:///x
http://h→x→http://h/x
http://h→../x→http://h/x
http://h→→http://h
http://h?q/r→x→http://h/x
http://h?q/r→?→http://h?
http://h/x#f→→http://h/x
http://h/x#f→#g→http://h/x#g
http://h/x#f→y→http://h/y
http://h/#f?/x→y→http://h/y
http://h/#f?/x→?y→http://h/?y";

/// Over a base without authority and without a slash: the steps of the standard as they are.
pub const OVER_A_SCHEME: &str = "\
/.//x→a://x
b/../c→a:/c
../b→a:b
./../.→a:
→a:s
//→a://
//g/../h/.→a://g/h/
//g/b//../c→a://g/b/c
/b/c/..→a:/b/
/..→a:/";

/// Bases without authority, each with a reference and what it resolves to.
pub const WITHOUT_AUTHORITY: &str = "\
a:../b/c→d→a:b/d
a:../b/c→..→a:/
a:../b/c→→a:../b/c
a:→x→a:x
a:→../x→a:x
a:→/x→a:/x";

/// Texts, and whether each is absolute.
pub const ABSOLUTE: &str = "\
a:→yes
a+.-9:x→yes
Z0:é→yes
a:#?:→yes
http://a/b/c/d;p?q→yes
a+.-9:x y→no
a:<→no
1a:b→no
:b→no
a/b:c→no
a#b:c→no
a?b:c→no
é:b→no
+a:b→no
a→no
→no";
