//! Texts and their tokens, each by its kind and its text, and where none begins; and tokens and what they
//! stand for.

pub const ROWS: &str = r#"== where another reader might split a text in another way
tokens|e:b.→PnameLn e:b|Dot .|
tokens|1.→Integer 1|Dot .|
tokens|1.e0→Double 1.e0|
tokens|PREFIX:→PnameNs PREFIX:|
tokens|"" "x"→StringQuote ""|StringQuote "x"|
tokens|"x"@base→StringQuote "x"|LangTag @base|
tokens|"""x"→none at 0
tokens|PREFIX:<a:>→PnameNs PREFIX:|IriRef <a:>|
tokens|PREFIX e: <a:>→WordPrefix PREFIX|PnameNs e:|IriRef <a:>|
tokens|@prefix: <a:>→LangTag @prefix|PnameNs :|IriRef <a:>|
tokens|@PREFIX→LangTag @PREFIX|
tokens|1.e .→Integer 1|Dot .|none at 2
tokens|1.e5 .→Double 1.e5|Dot .|
tokens|true.e:x .→PnameLn true.e:x|Dot .|
tokens|12.<a:s>→Integer 12|Dot .|IriRef <a:s>|
tokens|-.5 , +5.→Decimal -.5|Comma ,|Integer +5|Dot .|
tokens|aa→WordA a|WordA a|
tokens|"x"^^a→StringQuote "x"|Carets ^^|WordA a|
tokens|e:%41\~\%→PnameLn e:%41\~\%|
tokens|e:1:2→PnameLn e:1:2|
== names, labels, words and language tags
tokens|:→PnameNs :|
tokens|::→PnameLn ::|
tokens|e:→PnameNs e:|
tokens|e.f:→PnameNs e.f:|
tokens|e.:x→none at 0
tokens|a.:x→WordA a|Dot .|PnameLn :x|
tokens|e..f:x→PnameLn e..f:x|
tokens|.e:x→Dot .|PnameLn e:x|
tokens|e:a.b→PnameLn e:a.b|
tokens|e:a..b.→PnameLn e:a..b|Dot .|
tokens|e:a...→PnameLn e:a|Dot .|Dot .|Dot .|
tokens|e:a-b_c→PnameLn e:a-b_c|
tokens|e:-a→PnameNs e:|none at 2
tokens|e:9→PnameLn e:9|
tokens|e:_→PnameLn e:_|
tokens|e:%4→PnameNs e:|none at 2
tokens|e:%4g→PnameNs e:|none at 2
tokens|e:a%4→PnameLn e:a|none at 3
tokens|e:\.→PnameLn e:\.|
tokens|e:a\.→PnameLn e:a\.|
tokens|e:\a→PnameNs e:|none at 2
tokens|e:a.%41→PnameLn e:a.%41|
tokens|é:è→PnameLn é:è|
tokens|e:·→PnameNs e:|none at 2
tokens|e:a·→PnameLn e:a·|
tokens|e:a/b→PnameLn e:a|none at 3
tokens|_e:x→none at 0
tokens|_:a→BlankLabel _:a|
tokens|_:a.b.→BlankLabel _:a.b|Dot .|
tokens|_:a..→BlankLabel _:a|Dot .|Dot .|
tokens|_:9→BlankLabel _:9|
tokens|_:_→BlankLabel _:_|
tokens|_:-→none at 0
tokens|_:.→none at 0
tokens|_: a→none at 0
tokens|_:a:b→BlankLabel _:a|PnameLn :b|
tokens|a→WordA a|
tokens|ab→WordA a|none at 1
tokens|a:→PnameNs a:|
tokens|true→WordTrue true|
tokens|truex→WordTrue true|none at 4
tokens|True→none at 0
tokens|false→WordFalse false|
tokens|falsea→WordFalse false|WordA a|
tokens|aa.a a:b→WordA a|WordA a|Dot .|WordA a|PnameLn a:b|
tokens|aa.:b→WordA a|WordA a|Dot .|PnameLn :b|
tokens|prefix→WordPrefix prefix|
tokens|PreFix→WordPrefix PreFix|
tokens|base→WordBase base|
tokens|BASEx→WordBase BASE|none at 4
tokens|bas→none at 0
tokens|@en→LangTag @en|
tokens|@en-GB-x1→LangTag @en-GB-x1|
tokens|@en-→LangTag @en|none at 3
tokens|@en--x→LangTag @en|none at 3
tokens|@en1→LangTag @en|Integer 1|
tokens|@1→none at 0
tokens|@→none at 0
tokens|^^→Carets ^^|
tokens|^→none at 0
tokens|^^^→Carets ^^|none at 2
== numbers and the dot
tokens|0→Integer 0|
tokens|007→Integer 007|
tokens|+1→Integer +1|
tokens|-1→Integer -1|
tokens|+→none at 0
tokens|+-1→none at 0
tokens|1+1→Integer 1|Integer +1|
tokens|1-1→Integer 1|Integer -1|
tokens|.→Dot .|
tokens|..→Dot .|Dot .|
tokens|.5→Decimal .5|
tokens|+.5→Decimal +.5|
tokens|+.→none at 0
tokens|1.5→Decimal 1.5|
tokens|1.5.→Decimal 1.5|Dot .|
tokens|1.5.5→Decimal 1.5|Decimal .5|
tokens|1..5→Integer 1|Dot .|Decimal .5|
tokens|1e5→Double 1e5|
tokens|1E+5→Double 1E+5|
tokens|1e-5→Double 1e-5|
tokens|1.e5→Double 1.e5|
tokens|.5e5→Double .5e5|
tokens|-1.5e5→Double -1.5e5|
tokens|1.5e→Decimal 1.5|none at 3
tokens|1.5e+→Decimal 1.5|none at 3
tokens|1e→Integer 1|none at 1
tokens|1e5e5→Double 1e5|none at 3
tokens|.e5→Dot .|none at 1
tokens|1a→Integer 1|WordA a|
== strings and references
tokens|""→StringQuote ""|
tokens|''→StringSingleQuote ''|
tokens|"a"→StringQuote "a"|
tokens|'a'→StringSingleQuote 'a'|
tokens|"a→none at 0
tokens|"a␊"→none at 0
tokens|"a␍"→none at 0
tokens|"a␉b"→StringQuote "a␉b"|
tokens|"'"→StringQuote "'"|
tokens|'"'→StringSingleQuote '"'|
tokens|"\""→StringQuote "\""|
tokens|'\''→StringSingleQuote '\''|
tokens|"\t\b\n\r\f\'\\"→StringQuote "\t\b\n\r\f\'\\"|
tokens|"\a"→none at 0
tokens|"\"→none at 0
tokens|"\u0041"→StringQuote "\u0041"|
tokens|"\u004"→none at 0
tokens|"\uD800"→none at 0
tokens|"\uDfff"→none at 0
tokens|"\ud7FF\uE000"→StringQuote "\ud7FF\uE000"|
tokens|"\U0010FFFF"→StringQuote "\U0010FFFF"|
tokens|"\U00110000"→none at 0
tokens|"\U0000D800"→none at 0
tokens|"\U0001F600"→StringQuote "\U0001F600"|
tokens|"\U01000041"→none at 0
tokens|""a→StringQuote ""|WordA a|
tokens|""""""→StringLongQuote """"""|
tokens|""""x"""→StringLongQuote """"x"""|
tokens|"""x""""→StringLongQuote """x"""|none at 7
tokens|"""x""→none at 0
tokens|"""a"b""c"""→StringLongQuote """a"b""c"""|
tokens|"""a␊b␍c"""→StringLongQuote """a␊b␍c"""|
tokens|"""\""""→StringLongQuote """\""""|
tokens|"""\"""→none at 0
tokens|'''a'b''c'''→StringLongSingleQuote '''a'b''c'''|
tokens|''''''→StringLongSingleQuote ''''''|
tokens|'''→none at 0
tokens|"""→none at 0
tokens|"x"@en→StringQuote "x"|LangTag @en|
tokens|"é😀"→StringQuote "é😀"|
tokens|<>→IriRef <>|
tokens|<a>→IriRef <a>|
tokens|<a b>→none at 0
tokens|<a␊>→none at 0
tokens|<a→none at 0
tokens|<<a>→none at 0
tokens|<a>>→IriRef <a>|none at 3
tokens|<\u0020>→IriRef <\u0020>|
tokens|<\U0000003e>→IriRef <\U0000003e>|
tokens|<\t>→none at 0
tokens|<a"b>→none at 0
tokens|<a{b>→none at 0
tokens|<a`b>→none at 0
tokens|<é#?/%>→IriRef <é#?/%>|
tokens|<\U00110000>→none at 0
== white space, comments and brackets
tokens|→
tokens| ␉␍␊→
tokens|#→
tokens|# a→
tokens|# a␊b:→PnameNs b:|
tokens|# a␍b:→PnameNs b:|
tokens|a#b␊a→WordA a|WordA a|
tokens|a #b␊#c␊ a→WordA a|WordA a|
tokens|<a#b>→IriRef <a#b>|
tokens|"a#b"→StringQuote "a#b"|
tokens|e:a#b→PnameLn e:a|
tokens|[]→Anon []|
tokens|[ ␉␍␊]→Anon [ ␉␍␊]|
tokens|[#]␊]→Anon [#]␊]|
tokens|[#a␍#b␊ ]→Anon [#a␍#b␊ ]|
tokens|[ # ]→OpenSquare [|
tokens|[→OpenSquare [|
tokens|[a]→OpenSquare [|WordA a|CloseSquare ]|
tokens|[[]]→OpenSquare [|Anon []|CloseSquare ]|
tokens|]→CloseSquare ]|
tokens|()→OpenRound (|CloseRound )|
tokens|;,.→Semicolon ;|Comma ,|Dot .|
tokens|$→none at 0
tokens|a $→WordA a|none at 2
tokens|é→none at 0
tokens|a é→WordA a|none at 2
tokens|{→none at 0
== what tokens stand for
meaning|<>→
meaning|<http://e/a?b#c>→http://e/a?b#c
meaning|<\u0041\U00000042>→AB
meaning|<\u003e>→>
meaning|""→
meaning|"a"→a
meaning|'it''→it
meaning|"it's"→it's
meaning|'\''→'
meaning|"\"\\"→"\
meaning|"\t\n\r"→␉␊␍
meaning|"\u00e9\u00E9"→éé
meaning|"ab\u0041cd\tef"→abAcd␉ef
meaning|"\U0001F600!"→😀!
meaning|"\\u0041"→\u0041
meaning|"é"→é
meaning|""""""→
meaning|"""a"b""c"""→a"b""c
meaning|"""␊\"""""→␊"
meaning|''''x'''→'x
meaning|'''\u0027\''''→''
meaning|e:a→a
meaning|e:→e:
meaning|:a→a
meaning|e:a:b→a:b
meaning|e:%41\~\%→%41~%
meaning|e:\-\.→-.
meaning|_:a→_:a
meaning|@en→@en
meaning|12.5→12.5
meaning|[ ]→[ ]
meaning|"\b\f\t"→␈␌␉
"#;
