//! The results of each component, and what is read for them (SHACL, section 4).

pub const ROWS: &str = "\
# A result of each component, in the order of a report. Those that read have keys of their own. Three value
# nodes break them: an IRI, and two literals of one language. Without value nodes few are left.
e:S sh:path e:p ; sh:class e:C ; sh:datatype xsd:integer ; sh:nodeKind sh:IRI ; sh:minCount 4 ;
sh:maxCount 2 ; sh:minExclusive 5 ; sh:minInclusive 5 ; sh:maxExclusive 5 ; sh:maxInclusive 5 ;
sh:minLength 2 ; sh:maxLength 5 ; sh:pattern '^b' ; sh:languageIn ( 'en' ) ; sh:uniqueLang true ;
sh:equals e:equals ; sh:disjoint e:disjoint ; sh:lessThan e:less ; sh:lessThanOrEquals e:least ;
sh:not e:Not ; sh:and ( e:Any e:And ) ; sh:or ( e:Or ) ; sh:xone ( e:Xone ) ; sh:node e:Node ;
sh:property e:Property ; sh:qualifiedValueShape e:Counted ; sh:qualifiedMinCount 4 ;
sh:qualifiedMaxCount 2 ; sh:closed true ; sh:hasValue e:d ; sh:in ( e:d ) .
e:Not sh:path e:not ; sh:maxCount 0 . e:Any sh:nodeKind sh:IRIOrLiteral .
e:And sh:path e:and ; sh:minCount 1 .
e:Or sh:path e:or ; sh:minCount 1 . e:Xone sh:path e:xone ; sh:minCount 1 . e:Node sh:equals e:node .
e:Property sh:path e:property ; sh:minCount 1 . e:Counted sh:path e:counted ; sh:maxCount 0 .
e:a e:p e:b , 'a'@fr , 'c'@fr ; e:equals e:c ; e:disjoint e:b ; e:less e:c ; e:least e:c . e:b e:z e:d .
e:x e:y e:z .
? pair e:S e:a = \
(Class e:S e:a - e:b) (Class e:S e:a - 'a'@fr) (Class e:S e:a - 'c'@fr) \
(Datatype e:S e:a - e:b) (Datatype e:S e:a - 'a'@fr) (Datatype e:S e:a - 'c'@fr) \
(NodeKind e:S e:a - 'a'@fr) (NodeKind e:S e:a - 'c'@fr) \
(MinCount e:S e:a - -) (MaxCount e:S e:a - -) \
(MinExclusive e:S e:a - e:b) (MinExclusive e:S e:a - 'a'@fr) (MinExclusive e:S e:a - 'c'@fr) \
(MinInclusive e:S e:a - e:b) (MinInclusive e:S e:a - 'a'@fr) (MinInclusive e:S e:a - 'c'@fr) \
(MaxExclusive e:S e:a - e:b) (MaxExclusive e:S e:a - 'a'@fr) (MaxExclusive e:S e:a - 'c'@fr) \
(MaxInclusive e:S e:a - e:b) (MaxInclusive e:S e:a - 'a'@fr) (MaxInclusive e:S e:a - 'c'@fr) \
(MinLength e:S e:a - 'a'@fr) (MinLength e:S e:a - 'c'@fr) (MaxLength e:S e:a - e:b) \
(Pattern e:S e:a - e:b) (Pattern e:S e:a - 'a'@fr) (Pattern e:S e:a - 'c'@fr) \
(LanguageIn e:S e:a - e:b) (LanguageIn e:S e:a - 'a'@fr) (LanguageIn e:S e:a - 'c'@fr) \
(UniqueLang e:S e:a - -) \
(Equals e:S e:a - e:b) (Equals e:S e:a - 'a'@fr) (Equals e:S e:a - 'c'@fr) (Equals e:S e:a - e:c) \
(Disjoint e:S e:a - e:b) \
(LessThan e:S e:a - e:b) (LessThan e:S e:a - 'a'@fr) (LessThan e:S e:a - 'c'@fr) \
(LessThanOrEquals e:S e:a - e:b) (LessThanOrEquals e:S e:a - 'a'@fr) (LessThanOrEquals e:S e:a - 'c'@fr) \
(Not e:S e:a - e:b) (Not e:S e:a - 'a'@fr) (Not e:S e:a - 'c'@fr) \
(And e:S e:a - e:b) (And e:S e:a - 'a'@fr) (And e:S e:a - 'c'@fr) \
(Or e:S e:a - e:b) (Or e:S e:a - 'a'@fr) (Or e:S e:a - 'c'@fr) \
(Xone e:S e:a - e:b) (Xone e:S e:a - 'a'@fr) (Xone e:S e:a - 'c'@fr) \
(Node e:S e:a - e:b < Equals e:Node e:b - e:b) (Node e:S e:a - 'a'@fr < Equals e:Node 'a'@fr - 'a'@fr) \
(Node e:S e:a - 'c'@fr < Equals e:Node 'c'@fr - 'c'@fr) \
(MinCount e:Property e:b - -) (MinCount e:Property 'a'@fr - -) (MinCount e:Property 'c'@fr - -) \
(QualifiedMinCount e:S e:a - -) (QualifiedMaxCount e:S e:a - -) \
(Closed e:S e:a e:z e:d) (HasValue e:S e:a - -) \
(In e:S e:a - e:b) (In e:S e:a - 'a'@fr) (In e:S e:a - 'c'@fr) | \
e:a e:p, e:b rdf:type, e:a e:equals, e:a e:disjoint, e:a e:less, e:a e:least, \
e:b e:not, 'a'@fr e:not, 'c'@fr e:not, e:b e:and, 'a'@fr e:and, 'c'@fr e:and, \
e:b e:or, 'a'@fr e:or, 'c'@fr e:or, e:b e:xone, 'a'@fr e:xone, 'c'@fr e:xone, \
e:b e:node, 'a'@fr e:node, 'c'@fr e:node, e:b e:property, 'a'@fr e:property, 'c'@fr e:property, \
e:b e:counted, 'a'@fr e:counted, 'c'@fr e:counted, e:b, 'a'@fr, 'c'@fr, \
?e:Not e:b, ?e:Not 'a'@fr, ?e:Not 'c'@fr, ?e:Any e:b, ?e:Any 'a'@fr, ?e:Any 'c'@fr, \
?e:And e:b, ?e:And 'a'@fr, ?e:And 'c'@fr, ?e:Or e:b, ?e:Or 'a'@fr, ?e:Or 'c'@fr, \
?e:Xone e:b, ?e:Xone 'a'@fr, ?e:Xone 'c'@fr, ?e:Node e:b, ?e:Node 'a'@fr, ?e:Node 'c'@fr, \
?e:Property e:b, ?e:Property 'a'@fr, ?e:Property 'c'@fr, \
?e:Counted e:b, ?e:Counted 'a'@fr, ?e:Counted 'c'@fr
? pair e:S e:x = (MinCount e:S e:x - -) (QualifiedMinCount e:S e:x - -) (HasValue e:S e:x - -) | \
e:x e:p, e:x e:equals, e:x e:disjoint, e:x e:less, e:x e:least

# All classes of a type are read, also where the class is found at once, and none of a literal.
e:S sh:class e:C . e:C rdfs:subClassOf e:T . e:a a e:C . e:b a e:B . e:B rdfs:subClassOf e:D .
e:D rdfs:subClassOf e:C . e:c a e:C , e:E . e:E rdfs:subClassOf e:F . e:f a e:G . e:G rdfs:subClassOf e:H .
e:H rdfs:subClassOf e:G . e:g a 'C' . e:d e:type e:C ; e:p e:a . _:x a e:C . e:L sh:hasValue 'x' .
? pair e:S e:a = | e:a rdf:type, e:C rdfs:subClassOf, e:T rdfs:subClassOf
? pair e:S e:b = | e:b rdf:type, e:B rdfs:subClassOf, e:D rdfs:subClassOf, e:C rdfs:subClassOf, \
e:T rdfs:subClassOf
? pair e:S e:c = | e:c rdf:type, e:C rdfs:subClassOf, e:T rdfs:subClassOf, e:E rdfs:subClassOf, \
e:F rdfs:subClassOf
? pair e:S e:f = (Class e:S e:f - e:f) | e:f rdf:type, e:G rdfs:subClassOf, e:H rdfs:subClassOf
? pair e:S e:g = (Class e:S e:g - e:g) | e:g rdf:type, 'C' rdfs:subClassOf
? pair e:S e:d = (Class e:S e:d - e:d) | e:d rdf:type
? pair e:S e:C = (Class e:S e:C - e:C) | e:C rdf:type
? pair e:S data:x = | data:x rdf:type, e:C rdfs:subClassOf, e:T rdfs:subClassOf
? pair e:S 'x' = (Class e:S 'x' - 'x')

# One class of two nodes is found once and read for each; of two constraints of one component, one goes first.
e:S sh:path e:p ; sh:class e:B , e:C . e:a e:p e:b , e:c , e:f . e:b a e:D . e:c a e:D , e:E .
e:D rdfs:subClassOf e:C . e:B e:q e:B .
? pair e:S e:a = (Class e:S e:a - e:b) (Class e:S e:a - e:c) (Class e:S e:a - e:f) (Class e:S e:a - e:f) | \
e:a e:p, e:b rdf:type, e:c rdf:type, e:f rdf:type, e:D rdfs:subClassOf, e:C rdfs:subClassOf, \
e:E rdfs:subClassOf

# All shapes of a list are read, also where one is enough; the last of them fails at once.
e:And sh:and ( e:P e:Q ) . e:Or sh:or ( e:P e:Q ) . e:Xone sh:xone ( e:P e:Q e:R ) . e:Node sh:node e:M .
e:M sh:property e:P . e:P sh:path e:p ; sh:minCount 1 . e:Q sh:path e:q ; sh:minCount 1 .
e:R sh:path e:r ; sh:minCount 1 . e:b e:p e:c . e:c e:p e:a ; e:q e:a .
? pair e:And e:a = (And e:And e:a - e:a) | e:a e:p, e:a e:q, ?e:P e:a, ?e:Q e:a
? pair e:And e:b = (And e:And e:b - e:b) | e:b e:p, e:b e:q, ?e:P e:b, ?e:Q e:b
? pair e:And e:c = | e:c e:p, e:c e:q, ?e:P e:c, ?e:Q e:c
? pair e:Or e:a = (Or e:Or e:a - e:a) | e:a e:p, e:a e:q, ?e:P e:a, ?e:Q e:a
? pair e:Or e:b = | e:b e:p, e:b e:q, ?e:P e:b, ?e:Q e:b
? pair e:Xone e:a = (Xone e:Xone e:a - e:a) | e:a e:p, e:a e:q, e:a e:r, ?e:P e:a, ?e:Q e:a, ?e:R e:a
? pair e:Xone e:b = | e:b e:p, e:b e:q, e:b e:r, ?e:P e:b, ?e:Q e:b, ?e:R e:b
? pair e:Xone e:c = (Xone e:Xone e:c - e:c) | e:c e:p, e:c e:q, e:c e:r, ?e:P e:c, ?e:Q e:c, ?e:R e:c
? pair e:Node e:a = (Node e:Node e:a - e:a < MinCount e:P e:a - -) | e:a e:p, ?e:M e:a
? pair e:Node e:b = | e:b e:p, ?e:M e:b
? pair e:M e:a = (MinCount e:P e:a - -) | e:a e:p, ?e:P e:a
? pair e:P e:a = (MinCount e:P e:a - -) | e:a e:p

# Longer lists: seventeen members, predicates that are permitted, and objects.
e:In sh:path e:p ; sh:in ( 1 2 3 4 5 6 7 8 9 10 11 12 13 14 15 16 17 ) ; sh:equals e:q .
e:Closed sh:closed true ; sh:ignoredProperties ( e:b e:c e:d e:e e:f e:g e:h e:i e:j e:k e:l e:m e:n e:o e:q
e:r e:s ) ; sh:property e:P . e:P sh:path e:p .
e:a e:p 1 , 2 , 3 , 4 , 5 , 6 , 7 , 8 , 9 , 10 , 11 , 12 , 13 , 14 , 15 , 16 , 18 ;
e:q 17 , 2 , 3 , 4 , 5 , 6 , 7 , 8 , 9 , 10 , 11 , 12 , 13 , 14 , 15 , 16 , 18 ; e:s 1 ; e:t 1 .
? pair e:In e:a = (Equals e:In e:a - '1'^^integer) (Equals e:In e:a - '17'^^integer) \
(In e:In e:a - '18'^^integer) | e:a e:p, e:a e:q
? pair e:Closed e:a = (Closed e:Closed e:a e:t '1'^^integer) | e:a, e:a e:p, ?e:P e:a";
