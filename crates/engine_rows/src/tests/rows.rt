//! Blocks: shapes; those that take their place, or `#`; data; how many pairs and results there are, and where
//! other shapes take the place of those at hand, how many pairs that evaluates, or that it is `refused`; and
//! steps. The graph may hold eight triples.
//!
//! - `EDITS → OUTCOME after TRIES, COUNTS`: edits are made at once. It says how many pairs that evaluates,
//!   `unchanged`, or the limit that they would pass; how often it was refused for want of memory before, a
//!   number or `some`; and how many pairs and results there are then.
//! - `watch SUBJECT PREDICATE`: of the look-ups of this key one more is answered with each try; `watch all`:
//!   so of all look-ups and changes; `watch nothing`: nothing is refused.
//! - `enter NAME=PLACE ..`: terms are entered, given back and entered again: in which places behind those
//!   that were held, or `-` where one was.
//! - `count COUNTS`: how many pairs and results there are.

pub const ROWS: &str = "\
== edits that are made, and made again

e:S sh:targetNode e:a ; sh:path e:p ; sh:minCount 1 .
#
# nothing
1 1
insert e:a e:p e:b . → 1 after 0, 1 0
insert e:a e:p e:b . → unchanged after 0, 1 0
insert e:a e:q e:b . → 0 after 0, 1 0
remove e:a e:p e:c . → unchanged after 0, 1 0
remove e:a e:p e:b . → 1 after 0, 1 1
remove e:a e:p e:b . → unchanged after 0, 1 1
insert e:a e:p e:b . → 1 after 0, 1 0
insert e:a e:p e:c . ; remove e:a e:p e:b . → 1 after 0, 1 0
remove e:a e:p e:c . ; insert e:a e:p e:c . → unchanged after 0, 1 0

== edits that pass the limit of triples

e:S sh:targetNode e:a ; sh:path e:p ; sh:minCount 1 .
#
e:a e:p e:b , e:c , e:d . e:b e:p e:c , e:d . e:c e:p e:d , e:a .
1 0
insert e:a e:p e:e . → 1 after 0, 1 0
insert e:b e:p e:e . → too many triples after 0, 1 0
insert e:a e:p e:b . → unchanged after 0, 1 0
insert e:b e:p e:e . ; remove e:a e:p e:b . → 1 after 0, 1 0
insert e:x e:p e:y . ; insert e:x e:p e:z . ; remove e:a e:p e:c . → too many triples after 0, 1 0
remove e:b e:p e:e . → 0 after 0, 1 0
insert e:x e:p e:y . → 0 after 0, 1 0

== the keys of a pair beside those that are touched are not looked up

e:S sh:targetNode e:a , e:b ; sh:path e:p ; sh:minCount 1 .
#
e:c e:q e:d .
2 2
watch e:b e:p
insert e:a e:p e:new . → 1 after 0, 2 1

e:S sh:targetNode e:a , e:b ; sh:path e:p ; sh:minCount 1 .
#
e:c e:q e:d .
2 2
watch e:a e:p
insert e:a e:p e:new . → 1 after 1, 2 1

e:S sh:targetSubjectsOf e:next ; sh:path ( e:next e:mark ) ; sh:minCount 1 .
#
e:n0 e:next e:n1 . e:n1 e:next e:n2 . e:n2 e:next e:n0 .
3 3
watch e:n1 e:next
insert e:n1 e:mark 'new' . → 1 after 0, 3 2

e:S sh:targetSubjectsOf e:next ; sh:path ( e:next e:mark ) ; sh:minCount 1 .
#
e:n0 e:next e:n1 . e:n1 e:next e:n2 . e:n2 e:next e:n0 .
3 3
watch e:n2 e:next
insert e:n1 e:mark 'new' . → 1 after 0, 3 2

e:S sh:targetSubjectsOf e:next ; sh:path ( e:next e:mark ) ; sh:minCount 1 .
#
e:n0 e:next e:n1 . e:n1 e:next e:n2 . e:n2 e:next e:n0 .
3 3
watch e:n0 e:next
insert e:n1 e:mark 'new' . → 1 after 1, 3 2

== what is nested in two pairs is looked up once

e:S sh:targetNode e:a , e:b ; sh:path e:q ; sh:node e:I . \
e:I sh:property e:J . e:J sh:path e:p ; sh:minCount 1 .
#
e:a e:q e:c . e:b e:q e:c .
2 2
watch e:c e:p
insert e:c e:p e:new . → 2 after 1, 2 0
remove e:c e:p e:new . → 2 after 1, 2 2
insert e:c e:r e:new . → 0 after 0, 2 2

== a hub that several pairs ask, and that asks several

e:S sh:targetNode e:a , e:b , e:c ; sh:path e:ask ; sh:property e:H . \
e:H sh:path e:has ; sh:property e:J . e:J sh:path e:p ; sh:minCount 1 .
#
e:a e:ask e:h . e:b e:ask e:h . e:c e:ask e:h . e:h e:has e:x , e:y . e:y e:p e:z .
3 3
watch e:x e:p
insert e:x e:p e:z . → 3 after 1, 3 0
watch e:y e:p
remove e:x e:p e:z . → 3 after 0, 3 3
watch e:h e:has
insert e:x e:p e:w . → 3 after 1, 3 0
remove e:y e:p e:z . → 3 after 1, 3 3
insert e:y e:p e:z . → 3 after 1, 3 0
watch e:x e:p
insert e:h e:has e:w . → 3 after 0, 3 3
remove e:a e:ask e:h . → 1 after 0, 3 2
watch e:h e:has
insert e:a e:ask e:h . → 1 after 0, 3 3
watch e:b e:ask
insert e:w e:p e:z . ; remove e:a e:ask e:h . → 3 after 1, 3 0

e:S sh:targetNode e:a , e:b , e:c ; sh:path e:ask ; sh:property e:H . \
e:H sh:path e:has ; sh:property e:J . e:J sh:path e:p ; sh:minCount 1 .
#
e:a e:ask e:h . e:b e:ask e:h . e:c e:ask e:h . e:h e:has e:x , e:y . e:y e:p e:z .
3 3
watch all
insert e:h e:r e:x . → 0 after 1, 3 3
insert e:z e:p e:x . → 0 after 1, 3 3
remove e:h e:r e:x . ; remove e:z e:p e:x . → 0 after 1, 3 3
insert e:x e:p e:z . → 3 after some, 3 0
remove e:x e:p e:z . → 3 after some, 3 3
insert e:h e:has e:z . ; remove e:h e:has e:x . → 3 after some, 3 3

e:S sh:targetNode e:a , e:b ; sh:path e:ask ; sh:property e:H . e:H sh:targetNode e:h ; sh:path e:has ; \
sh:property e:J . e:J sh:targetNode e:x ; sh:path e:p ; sh:minCount 1 .
#
e:a e:ask e:h . e:b e:ask e:h . e:h e:has e:x , e:y . e:y e:p e:z .
4 4
watch e:x e:p
insert e:x e:p e:z . → 4 after 2, 4 0
watch e:h e:has
remove e:x e:p e:z . → 4 after 2, 4 4
watch e:y e:p
insert e:y e:p e:w . → 3 after 1, 4 4
watch e:x e:p
remove e:y e:p e:w . → 3 after 0, 4 4

== three shapes below one another, and two ways to one pair

e:S sh:targetNode e:a , e:b ; sh:path e:q ; sh:node e:L . e:L sh:node e:M . e:M sh:node e:N . \
e:N sh:property e:P . e:P sh:path e:p ; sh:minCount 1 .
#
e:a e:q e:c . e:b e:q e:c , e:d .
2 3
watch e:c e:p
insert e:c e:p e:new . → 2 after 1, 2 1
watch e:d e:p
insert e:d e:p e:new . → 1 after 1, 2 0
watch e:c e:p
remove e:d e:p e:new . → 1 after 0, 2 1
watch all
remove e:c e:p e:new . → 2 after some, 2 3
insert e:a e:p e:new . → 0 after 1, 2 3

e:S sh:targetNode e:a , e:b ; sh:property e:L , e:R . e:L sh:path e:l ; sh:property e:P . \
e:R sh:path e:r ; sh:property e:P . e:P sh:path e:p ; sh:minCount 1 .
#
e:a e:l e:c ; e:r e:c . e:b e:r e:d .
2 3
watch e:c e:p
insert e:c e:p e:new . → 1 after 1, 2 1
watch e:a e:l
remove e:c e:p e:new . → 1 after 1, 2 3
watch e:a e:r
remove e:a e:l e:c . → 1 after 0, 2 2
insert e:c e:p e:new . → 1 after 1, 2 1
remove e:c e:p e:new . → 1 after 1, 2 2

== what nobody asks any longer stays remembered until it is touched

e:S sh:targetNode e:a , e:b ; sh:path e:q ; sh:property e:I . e:I sh:path e:r ; sh:property e:J . \
e:J sh:path e:p ; sh:minCount 1 .
#
e:a e:q e:c . e:c e:r e:d .
2 1
watch e:d e:p
remove e:a e:q e:c . → 1 after 0, 2 0
insert e:b e:q e:c . → 1 after 0, 2 1
remove e:b e:q e:c . → 1 after 0, 2 0
insert e:d e:p e:new . → 0 after 0, 2 0
insert e:a e:q e:c . → 1 after 1, 2 0
remove e:a e:q e:c . → 1 after 0, 2 0
remove e:d e:p e:new . ; insert e:b e:q e:c . → 1 after 1, 2 1

== what is denied, and what is counted

e:S sh:targetNode e:a , e:b ; sh:path e:q ; sh:not e:N ; sh:qualifiedValueShape e:M ; \
sh:qualifiedMinCount 1 . e:N sh:property e:P . e:M sh:not e:N . e:P sh:path e:p ; sh:minCount 1 .
#
e:a e:q e:c . e:b e:q e:c , e:d . e:d e:p e:z .
2 1
watch e:c e:p
insert e:c e:p e:z . → 2 after 1, 2 5
watch e:d e:p
remove e:c e:p e:z . → 2 after 0, 2 1
remove e:d e:p e:z . → 1 after 1, 2 0
watch all
insert e:d e:p e:z . → 1 after some, 2 1
insert e:c e:p e:z . ; remove e:d e:p e:z . → 2 after some, 2 3

== each look-up and each change is refused once

e:S sh:targetNode e:h ; sh:property e:Q , e:R . \
e:Q sh:path e:has ; sh:qualifiedValueShape e:A ; sh:qualifiedMinCount 1 ; \
sh:qualifiedValueShapesDisjoint true . \
e:R sh:path e:has ; sh:qualifiedValueShape e:B ; sh:qualifiedMinCount 1 ; \
sh:qualifiedValueShapesDisjoint true . \
e:A sh:path e:k ; sh:hasValue e:thumb . e:B sh:path e:k ; sh:hasValue e:finger .
#
e:h e:has e:d . e:d e:k e:thumb , e:finger .
1 2
watch all
remove e:d e:k e:finger . → 1 after some, 1 1
insert e:d e:k e:finger . → 1 after some, 1 2

e:S sh:targetClass e:D ; sh:property [ sh:path e:p ; sh:minCount 1 ] .
#
e:x a e:C . e:y a e:C . e:z a e:C .
0 0
watch all
insert e:C rdfs:subClassOf e:D . → 3 after some, 3 3
insert e:x e:p e:y . → 1 after some, 3 2
remove e:C rdfs:subClassOf e:D . → 0 after some, 0 0

e:S sh:targetNode e:a , e:b ; sh:path e:q ; sh:node e:I . \
e:I sh:property e:J . e:J sh:path e:p ; sh:minCount 1 .
#
e:a e:q e:c . e:b e:q e:c .
2 2
watch all
insert e:c e:p e:new . → 2 after some, 2 0
insert e:c e:p e:new . → unchanged after 0, 2 0
insert e:x e:r e:newer . → 0 after 1, 2 0
remove e:c e:p e:new . ; remove e:x e:r e:newer . → 2 after some, 2 2

== terms are entered, given back and entered again

e:S sh:targetNode e:a , e:b ; sh:path e:q ; sh:node e:I . \
e:I sh:property e:J . e:J sh:path e:p ; sh:minCount 1 .
#
e:a e:q e:c . e:b e:q e:c .
2 2
enter u=0 v=1 d=2
insert e:c e:p e:d . → 2 after 0, 2 0
enter a=- w=0 c=- x=1
insert e:c e:p e:d . → unchanged after 0, 2 0
enter y=0
remove e:c e:p e:d . → 2 after 0, 2 2
enter d=- z=0
insert e:c e:r e:d . → 0 after 0, 2 2

e:S sh:targetSubjectsOf e:p ; sh:path e:q ; sh:minCount 1 .
#
e:a e:p e:b .
1 1
watch all
enter u=0 v=1
insert e:u e:p e:b . → 1 after some, 2 2
enter u=- w=0
insert e:w e:q e:u . ; insert e:u e:q e:v . → 1 after some, 2 1
enter x=0
remove e:u e:p e:b . → 0 after some, 1 1
enter u=- x=- y=0
insert e:a e:q e:y . → 1 after some, 1 0

== other shapes take the place of those at hand

e:S sh:targetNode e:a ; sh:path e:p ; sh:minCount 1 . e:T sh:targetNode e:a ; sh:path e:q ; sh:minCount 1 .
e:S sh:targetNode e:a ; sh:path e:p ; sh:minCount 1 . e:T sh:targetNode e:a ; sh:path e:q ; sh:minCount 2 .
e:a e:q e:b .
2 1 → 1
count 2 2
insert e:a e:q e:c . → 1 after 0, 2 1
watch all
insert e:a e:p e:c . → 1 after some, 2 0

e:S sh:targetNode e:a ; sh:path e:p ; sh:minCount 1 . e:T sh:targetNode e:a ; sh:path e:q ; sh:minCount 1 .
e:S sh:targetNode e:a ; sh:path e:p ; sh:minCount 1 . e:T sh:targetNode e:a ; sh:path e:q ; sh:minCount 2 .
e:a e:q e:b .
2 1 → refused
count 2 1
insert e:a e:q e:c . → 1 after 0, 2 1
remove e:a e:q e:b . → 1 after 0, 2 1
insert e:a e:p e:c . → 1 after 0, 2 0

e:S sh:targetNode e:a ; sh:path e:q ; sh:node e:I . e:I sh:property e:J . e:J sh:path e:p ; sh:minCount 1 .
e:S sh:targetNode e:a ; sh:path e:q ; sh:node e:I . e:I sh:property e:J . e:J sh:path e:p ; sh:minCount 2 .
e:a e:q e:b . e:b e:p e:c .
1 0 → 1
count 1 1
watch all
insert e:b e:p e:d . → 1 after some, 1 0

e:S sh:targetNode e:a ; sh:path e:q ; sh:node e:I . e:I sh:property e:J . e:J sh:path e:p ; sh:minCount 1 .
e:B sh:path e:q ; sh:minCount 1 . e:C sh:path e:q ; sh:maxCount 1 . e:S sh:targetNode e:a ; sh:path e:q ; \
sh:node e:I . e:I sh:property e:J . e:J sh:path e:p ; sh:minCount 1 .
e:a e:q e:b .
1 1 → 0
count 1 1
watch e:b e:p
insert e:b e:p e:d . → 1 after 1, 1 0

== other shapes over a hub

e:S sh:targetNode e:a , e:b , e:c ; sh:path e:ask ; sh:property e:H . \
e:H sh:path e:has ; sh:property e:J . e:J sh:path e:p ; sh:minCount 1 .
e:B sh:path e:has ; sh:minCount 1 . e:C sh:path e:has ; sh:maxCount 1 . \
e:S sh:targetNode e:a , e:b , e:c ; sh:path e:ask ; sh:property e:H . \
e:H sh:path e:has ; sh:property e:J . e:J sh:path e:p ; sh:minCount 1 .
e:a e:ask e:h . e:b e:ask e:h . e:c e:ask e:h . e:h e:has e:x , e:y . e:y e:p e:z .
3 3 → 0
count 3 3
watch e:h e:has
insert e:x e:p e:z . → 3 after 1, 3 0
watch e:y e:p
remove e:x e:p e:z . → 3 after 0, 3 3
watch all
insert e:y e:r e:x . → 0 after 1, 3 3
remove e:y e:p e:z . → 3 after some, 3 6

e:S sh:targetNode e:a , e:b , e:c ; sh:path e:ask ; sh:property e:H . \
e:H sh:path e:has ; sh:property e:J . e:J sh:path e:p ; sh:minCount 1 .
e:B sh:targetNode e:b ; sh:path e:ask ; sh:property e:H . \
e:S sh:targetNode e:a , e:b , e:c ; sh:path e:ask ; sh:property e:H . \
e:H sh:path e:has ; sh:property e:J . e:J sh:path e:p ; sh:minCount 1 .
e:a e:ask e:h . e:b e:ask e:h . e:c e:ask e:h . e:h e:has e:x , e:y . e:y e:p e:z .
3 3 → 1
count 4 4
watch e:x e:p
insert e:x e:p e:z . → 4 after 1, 4 0
watch e:h e:has
remove e:b e:ask e:h . → 2 after 0, 4 0
remove e:x e:p e:z . → 2 after 1, 4 2

e:S sh:targetNode e:a , e:b , e:c ; sh:path e:ask ; sh:property e:H . \
e:H sh:path e:has ; sh:property e:J . e:J sh:path e:p ; sh:minCount 1 .
e:B sh:path e:has ; sh:minCount 1 . e:S sh:targetNode e:a , e:b , e:c ; sh:path e:ask ; sh:minCount 2 ; \
sh:property e:H . e:H sh:path e:has ; sh:property e:J . e:J sh:path e:p ; sh:minCount 1 .
e:a e:ask e:h . e:b e:ask e:h . e:c e:ask e:h . e:h e:has e:x , e:y . e:y e:p e:z .
3 3 → 3
count 3 6
watch e:h e:has
insert e:a e:ask e:z . → 1 after 0, 3 5
insert e:x e:p e:z . → 3 after 1, 3 2

e:S sh:targetNode e:a , e:b , e:c ; sh:path e:ask ; sh:property e:H . \
e:H sh:path e:has ; sh:property e:J . e:J sh:path e:p ; sh:minCount 1 .
e:S sh:targetNode e:a , e:b , e:c ; sh:path e:ask ; sh:property e:H . \
e:H sh:path e:has ; sh:property e:J . e:J sh:path e:p ; sh:minCount 2 .
e:a e:ask e:h . e:b e:ask e:h . e:c e:ask e:h . e:h e:has e:x , e:y . e:y e:p e:z .
3 3 → 3
count 3 6
watch e:y e:p
insert e:y e:p e:w . → 3 after 1, 3 3

e:S sh:targetNode e:a , e:b , e:c ; sh:path e:ask ; sh:property e:H . \
e:H sh:path e:has ; sh:property e:J . e:J sh:path e:p ; sh:minCount 1 .
e:S sh:targetNode e:a , e:b , e:c ; sh:path e:ask ; sh:property e:H . \
e:H sh:path e:has ; sh:property e:J . e:J sh:path e:p ; sh:minCount 2 .
e:a e:ask e:h . e:b e:ask e:h . e:c e:ask e:h . e:h e:has e:x , e:y . e:y e:p e:z .
3 3 → refused
count 3 3
watch e:y e:p
insert e:x e:p e:z . → 3 after 0, 3 0
";
