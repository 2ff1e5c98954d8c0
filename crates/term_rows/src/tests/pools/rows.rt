//! Pools, a block for each: how many terms it may hold, and then steps, each with its answer. A term is a
//! word, or a number where it is asked by that.

pub const STEPS: &str = "\
70
len → 62
limit → 70
find e:a → none
find sh:in → 61
len → 62

63
enter 'x'@en → 62
enter 'x'@en → 62
len → 63
term 62 → 'x'@en

70
enter '5' → 62
enter '5'^^integer → 63
enter '5'^^http://www.w3.org/1999/02/22-rdf-syntax-ns#langString → 64
enter '5'@en → 65
enter '5'@de → 66
enter '5' → 62
len → 67

62
enter shapes#1 → full
enter sh:in → 61
find shapes#1 → none
len → 62

64
enter_own 'x'@en → 62
enter 'x'@en → 62
enter_own 'x'@en → 62
enter_own sh:in → 61
enter data#1 → 63
len → 64
enter_own data#1 → 63
enter_own shapes#1 → full
find shapes#1 → none
len → 64
cut 63 → done
enter_own 'x' → 63
term 63 → 'x'
find data#1 → none

72
enter_own '5' → 62
enter_own '5'^^integer → 63
enter_own '5'@en → 64
enter_own '5'@de → 65
enter_own data:x → 66
enter_own shapes:x → 67
enter_own data#1 → 68
enter_own shapes#1 → 69
enter_own shapes#2 → 70
enter_own e:a → 71
enter_own shapes:x → 67
enter_own e:b → full
limit → 72

65
enter data:x → 62
enter shapes:x → 63
enter data#1 → 64
enter shapes#1 → full
enter shapes:x → 63
len → 65

66
enter e:a → 62
enter '1' → 63
enter data:b → 64
cut 63 → done
len → 63
limit → 66
find e:a → 62
find '1' → none
find data:b → none
term 62 → e:a
enter data:b → 63
enter '1' → 64
term 63 → data:b
cut 65 → done
len → 65
cut 62 → done
len → 62
find sh:in → 61
find e:a → none
enter shapes#4294967295 → 62

63
enter e:a → 62
enter e:b → full
cut 62 → done
enter e:b → 62
enter e:a → full

70
enter e:a → 62
enter data:x → 63
enter shapes#1 → 64
enter 'x' → 65
enter 'x'@en → 66
is_iri 62 → yes
is_iri 63 → no
is_iri 64 → no
is_iri 65 → no
is_iri 66 → no
is_iri 67 → no
is_iri 4294967295 → no
is_iri rdf:type → yes
is_iri 61 → yes
is_iri_or_blank 62 → yes
is_iri_or_blank 63 → yes
is_iri_or_blank 64 → yes
is_iri_or_blank 65 → no
is_iri_or_blank 66 → no
is_iri_or_blank 67 → no
is_iri_or_blank 4294967295 → no
is_iri_or_blank rdf:nil → yes
cut 63 → done
is_iri 62 → yes
is_iri 63 → no
is_iri_or_blank 63 → no

62
compare rdf:first rdf:type → less
compare rdf:type rdf:first → greater
compare sh:in sh:in → equal

70
enter '5' → 62
enter shapes#1 → 63
enter shapes:x → 64
enter data:x → 65
enter e:b → 66
enter e:a → 67
compare e:a e:b → less
compare e:b data:x → less
compare shapes:x data:x → greater
compare shapes:x shapes#1 → less
compare shapes#1 '5' → less
compare '5' e:a → greater
compare 68 '5' → less
compare e:a 68 → greater
compare 68 69 → less
compare 69 69 → equal
order '5' e:a data:x e:a shapes:x e:b shapes#1 → e:a e:b data:x shapes:x shapes#1 '5'

62
order_triples rdf:type rdf:type rdf:first → rdf:type rdf:type rdf:first
order sh:in rdf:type sh:and sh:IRI rdf:first rdf:type sh:in → rdf:first rdf:type sh:IRI sh:and sh:in
order sh:in → sh:in

62
compare_triples rdf:first sh:in sh:and, rdf:type rdf:first sh:or → less
compare_triples rdf:type rdf:first sh:or, rdf:first sh:in sh:and → greater
compare_triples rdf:first sh:in sh:and, rdf:first sh:in sh:and → equal
compare_triples rdf:first sh:in sh:and, rdf:first sh:in sh:in → less
compare_triples rdf:type rdf:type rdf:first, rdf:type rdf:first sh:or → greater
order_triples rdf:type rdf:type rdf:first, rdf:type rdf:first sh:or, rdf:first sh:in sh:in, \
rdf:first sh:in sh:and, rdf:type rdf:type rdf:first, rdf:type rdf:first sh:or, rdf:first sh:in sh:in, \
rdf:first sh:in sh:and → rdf:first sh:in sh:and, rdf:first sh:in sh:in, rdf:type rdf:first sh:or, \
rdf:type rdf:type rdf:first
";
