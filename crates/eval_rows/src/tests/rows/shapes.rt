//! What shapes find along paths, of one another, and of siblings, and what is read for it.

pub const ROWS: &str = "\
# Value nodes along paths, in order (section 2.3.1).
e:Node sh:nodeKind sh:IRI . e:Seq sh:path ( e:p e:q ) ; sh:nodeKind sh:Literal ; sh:maxCount 1 .
e:Inverse sh:path [ sh:inversePath e:p ] ; sh:minCount 3 .
e:Round sh:path [ sh:zeroOrMorePath e:n ] ; sh:class e:C ; sh:maxCount 1 .
e:Some sh:path [ sh:oneOrMorePath e:n ] ; sh:property e:Q . e:Q sh:path e:q ; sh:minExclusive 3 .
e:Text sh:path [ sh:zeroOrMorePath e:n ] ; sh:nodeKind sh:IRI .
e:a e:p e:b , e:c . e:b e:q e:d . e:c e:q e:d . e:m e:n e:o . e:o e:n e:m ; a e:C ; e:q 3 . e:m e:q 4 , 2 .
e:x e:y 'x' .
? pair e:Node 'x' = (NodeKind e:Node 'x' - 'x')
? pair e:Seq e:a = (NodeKind e:Seq e:a - e:d) | e:a e:p, e:b e:q, e:c e:q
? pair e:Inverse e:b = (MinCount e:Inverse e:b - -) | ^e:p e:b
? pair e:Round e:o = (Class e:Round e:o - e:m) (MaxCount e:Round e:o - -) | \
e:m e:n, e:o e:n, e:m rdf:type, e:o rdf:type, e:C rdfs:subClassOf
? pair e:Some e:m = (MinExclusive e:Q e:m - '2'^^integer) (MinExclusive e:Q e:o - '3'^^integer) | \
e:m e:n, e:o e:n, e:m e:q, e:o e:q, ?e:Q e:m, ?e:Q e:o
? pair e:Text 'x' = (NodeKind e:Text 'x' - 'x') | 'x' e:n

# What is closed is read at each value node; what is permitted is a predicate, and no longer path.
e:S sh:path e:p ; sh:closed true ; sh:property e:P , e:Q . e:P sh:path e:q . e:Q sh:path ( e:r e:q ) .
e:a e:p e:b , 'x' ; e:s e:d . e:b e:q e:c ; e:r e:d , e:c .
? pair e:S e:a = (Closed e:S e:a e:r e:c) (Closed e:S e:a e:r e:d) | \
e:a e:p, e:b, 'x', e:b e:q, 'x' e:q, e:b e:r, 'x' e:r, e:c e:q, e:d e:q, \
?e:P e:b, ?e:P 'x', ?e:Q e:b, ?e:Q 'x'

# A deactivated shape has no results, and nothing is read of it; all conforms to it.
e:P sh:path e:p ; sh:minCount 1 ; sh:deactivated true . e:N sh:hasValue e:z ; sh:deactivated true .
e:S sh:path e:q ; sh:not e:P ; sh:node e:N ; sh:property e:P ; sh:qualifiedValueShape e:P ;
sh:qualifiedMinCount 1 ; sh:qualifiedMaxCount 0 . e:a e:q e:b .
? pair e:P e:a =
? pair e:S e:a = (Not e:S e:a - e:b) (QualifiedMaxCount e:S e:a - -) | e:a e:q

# Results of sh:property are those at each value node, as often as they stand. What one of sh:node rests on is
# one level deep, in order, and handed on. A shape that is asked several times is read once. Of answers those
# right below are read, and none of a pair that these ask.
e:S sh:property e:Q , e:R . e:Q sh:path e:q ; sh:property e:P . e:R sh:path e:r ; sh:property e:P .
e:P sh:path e:p ; sh:minCount 2 ; sh:nodeKind sh:IRI . e:a e:q e:b , e:c ; e:r e:b . e:b e:p 'x' .
e:T sh:path e:r ; sh:node e:U ; sh:in ( e:d ) . e:U sh:node e:V .
e:V sh:nodeKind sh:Literal ; sh:hasValue 'y' .
e:W sh:not e:P ; sh:and ( e:P e:P ) ; sh:node e:X ; sh:property e:P . e:X sh:property e:P .
? pair e:S e:a = (NodeKind e:P e:b - 'x') (MinCount e:P e:b - -) (MinCount e:P e:c - -) \
(NodeKind e:P e:b - 'x') (MinCount e:P e:b - -) | e:a e:q, e:a e:r, e:b e:p, e:c e:p, ?e:Q e:a, ?e:R e:a
? pair e:Q e:a = (NodeKind e:P e:b - 'x') (MinCount e:P e:b - -) (MinCount e:P e:c - -) | \
e:a e:q, e:b e:p, e:c e:p, ?e:P e:b, ?e:P e:c
? pair e:T e:a = (Node e:T e:a - e:b < Node e:U e:b - e:b) (In e:T e:a - e:b) | e:a e:r, ?e:U e:b
? pair e:U e:a = (Node e:U e:a - e:a < NodeKind e:V e:a - e:a < HasValue e:V e:a - -) | ?e:V e:a
? pair e:W e:c = (And e:W e:c - e:c) (Node e:W e:c - e:c < MinCount e:P e:c - -) (MinCount e:P e:c - -) | \
e:c e:p, ?e:P e:c, ?e:X e:c

# A value node that conforms to a sibling counts for neither bound.
e:S sh:property e:Q , e:R .
e:Q sh:path e:has ; sh:qualifiedValueShape e:A ; sh:qualifiedMinCount 1 ;
sh:qualifiedValueShapesDisjoint true .
e:R sh:path e:has ; sh:qualifiedValueShape e:B ; sh:qualifiedMaxCount 0 ;
sh:qualifiedValueShapesDisjoint true .
e:A sh:path e:k ; sh:hasValue e:thumb . e:B sh:path e:m ; sh:hasValue e:finger .
e:both e:has e:d . e:d e:k e:thumb ; e:m e:finger . e:none e:has e:d , e:f . e:f e:m e:finger .
? pair e:S e:both = (QualifiedMinCount e:Q e:both - -) | \
e:both e:has, e:d e:k, e:d e:m, ?e:Q e:both, ?e:R e:both
? pair e:S e:none = (QualifiedMinCount e:Q e:none - -) (QualifiedMaxCount e:R e:none - -) | \
e:none e:has, e:d e:k, e:d e:m, e:f e:k, e:f e:m, ?e:Q e:none, ?e:R e:none
? pair e:S e:f = (QualifiedMinCount e:Q e:f - -) | e:f e:has, ?e:Q e:f, ?e:R e:f
? pair e:Q e:both = (QualifiedMinCount e:Q e:both - -) | \
e:both e:has, e:d e:k, e:d e:m, ?e:A e:d, ?e:B e:d

# What is not so: results too many or too few, out of order, of another component, shape or node, resting on
# more or on less; keys too many or too few, and answers of other pairs; shapes and terms that nobody knows.
e:S sh:path e:p ; sh:minCount 1 ; sh:hasValue e:b ; sh:property e:P . e:P sh:path e:q ; sh:nodeKind sh:IRI .
e:T sh:node e:N . e:N sh:nodeKind sh:Literal . e:a e:p e:c . e:c e:q 'x' , 'y' . e:x e:y e:b .
? pair e:S e:a = (NodeKind e:P e:c - 'x') (NodeKind e:P e:c - 'y') (HasValue e:S e:a - -) | \
e:a e:p, e:c e:q, ?e:P e:c
? not pair e:S e:a = (NodeKind e:P e:c - 'x') (HasValue e:S e:a - -) | \
e:a e:p, e:c e:q, ?e:P e:c
? not pair e:S e:a = (NodeKind e:P e:c - 'x') (NodeKind e:P e:c - 'y') | e:a e:p, e:c e:q, ?e:P e:c
? not pair e:S e:a = (NodeKind e:P e:c - 'x') (NodeKind e:P e:c - 'y') (HasValue e:S e:a - -) \
(HasValue e:S e:a - -) | \
e:a e:p, e:c e:q, ?e:P e:c
? not pair e:S e:a = (NodeKind e:P e:c - 'y') (NodeKind e:P e:c - 'x') (HasValue e:S e:a - -) | \
e:a e:p, e:c e:q, ?e:P e:c
? not pair e:S e:a = (NodeKind e:P e:a - 'x') (NodeKind e:P e:c - 'y') (HasValue e:S e:a - -) | \
e:a e:p, e:c e:q, ?e:P e:c
? not pair e:S e:a = (NodeKind e:S e:c - 'x') (NodeKind e:P e:c - 'y') (HasValue e:S e:a - -) | \
e:a e:p, e:c e:q, ?e:P e:c
? not pair e:S e:a = (NodeKind e:P e:c - 'x') (NodeKind e:P e:c - 'y') (HasValue e:S e:a - e:b) | \
e:a e:p, e:c e:q, ?e:P e:c
? not pair e:S e:a = (NodeKind e:P e:c - 'x') (NodeKind e:P e:c - 'y') (MinCount e:S e:a - -) | \
e:a e:p, e:c e:q, ?e:P e:c
? not pair e:S e:a = (NodeKind e:P e:c - 'x') (NodeKind e:P e:c - 'y') (HasValue e:S e:a - -) | \
e:a e:p, ?e:P e:c
? not pair e:S e:a = (NodeKind e:P e:c - 'x') (NodeKind e:P e:c - 'y') (HasValue e:S e:a - -) | \
e:c e:q, ?e:P e:c
? not pair e:S e:a = (NodeKind e:P e:c - 'x') (NodeKind e:P e:c - 'y') (HasValue e:S e:a - -) | \
e:a e:p, e:c e:q, e:b e:q, ?e:P e:c
? not pair e:S e:a = (NodeKind e:P e:c - 'x') (NodeKind e:P e:c - 'y') (HasValue e:S e:a - -) | \
e:a e:p, e:c e:q
? not pair e:S e:a = (NodeKind e:P e:c - 'x') (NodeKind e:P e:c - 'y') (HasValue e:S e:a - -) | \
e:a e:p, e:c e:q, ?e:P e:b
? not pair e:S e:a = (NodeKind e:P e:c - 'x') (NodeKind e:P e:c - 'y') (HasValue e:S e:a - -) | \
e:a e:p, e:c e:q, ?e:P e:c, ?e:N e:c
? pair e:T e:a = (Node e:T e:a - e:a < NodeKind e:N e:a - e:a) | ?e:N e:a
? not pair e:T e:a = (Node e:T e:a - e:a) | ?e:N e:a
? not pair e:T e:a = (Node e:T e:a - e:a < NodeKind e:N e:a - e:a < NodeKind e:N e:a - e:a) | ?e:N e:a
? not pair e:T e:a = (Node e:T e:a - e:a < NodeKind e:N e:a - e:a) | e:a, ?e:N e:a
? not pair e:T e:a = (Node e:T e:a - e:a < NodeKind e:N e:a - e:a)
? not pair e:a e:a =
? not pair e:S e:unknown = (MinCount e:S e:unknown - -) | e:unknown e:p
? not pair e:S =
? not pairs e:T 'x' =
? not pair e:T e:a";
