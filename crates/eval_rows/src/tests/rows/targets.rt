//! Target nodes (SHACL, section 2.1.3), what is read to find them, and from which shapes a validation begins.

pub const ROWS: &str = "\
# Nodes in the order of terms, each once. A node that is stated needs no triple.
e:Z sh:targetNode 'x' , e:b , e:a . e:Subjects sh:targetSubjectsOf e:p . e:Objects sh:targetObjectsOf e:p .
e:None sh:minCount 1 ; sh:path e:p . e:Class sh:targetClass e:C .
e:Off sh:targetNode e:a ; sh:deactivated true .
e:All sh:targetNode e:d , e:a ; sh:targetClass e:C ; sh:targetSubjectsOf e:p ; sh:targetObjectsOf e:q .
e:b e:p e:c , 'x' . e:a e:p e:c . e:d e:q e:a . e:C rdfs:subClassOf e:D . e:D rdfs:subClassOf e:C .
e:f a e:D , e:C . e:e a e:D . e:g a e:E . e:E rdfs:subClassOf e:F .
e:Above sh:targetClass e:F ; sh:property e:Below . e:Below sh:path e:p ; sh:targetNode e:h . e:h e:r e:h .
? targets e:Z = e:a e:b 'x'
? targets e:Subjects = e:a e:b | with e:p
? targets e:Objects = e:c 'x' | with e:p
? targets e:None =
? targets e:Class = e:e e:f | ^rdfs:subClassOf e:D, ^rdfs:subClassOf e:C, ^rdf:type e:D, ^rdf:type e:C
? targets e:All = e:a e:b e:d e:e e:f | ^rdfs:subClassOf e:D, ^rdfs:subClassOf e:C, ^rdf:type e:D, \
^rdf:type e:C, with e:p, with e:q
? targets e:Above = e:g | ^rdfs:subClassOf e:F, ^rdfs:subClassOf e:E, ^rdf:type e:F, ^rdf:type e:E
? targets e:Below = e:h
? begun = e:Above e:All e:Below e:Class e:Objects e:Subjects e:Z
? not targets e:Z = e:a 'x' e:b
? not targets e:Z = e:a e:b
? not targets e:Z = e:a e:b 'x' 'x'
? not targets e:Z = e:a e:b 'x' | with e:p
? not targets e:Class = e:e e:f | ^rdfs:subClassOf e:C, ^rdf:type e:D, ^rdf:type e:C
? not targets e:a =
? not begun = e:Above e:All e:Below e:Class e:None e:Objects e:Subjects e:Z
? not begun = e:Above e:All e:Below e:Class e:Objects e:Subjects

# Nothing begins.
e:T sh:nodeKind sh:IRI ; sh:deactivated true ; sh:targetNode e:a . e:S sh:path e:p ; sh:minCount 1 .
? begun =";
