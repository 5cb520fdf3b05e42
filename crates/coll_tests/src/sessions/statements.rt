//! Worked sessions: what is accepted, refused, taken back, put again and listed.
//!
//! The sessions over a table are one constant text, of which each paragraph is a transcript (`transcripts`): here the lines of a session,
//! and then each line of its replies. A row that begins with `--` says what the session shows.

/// Sessions over the first table.
pub const ON_FIRST: &str = r#":undo
reorder-after <Q>
:list
reorder-end
reorder-after a
a
reorder-end
b
reorder-end
| refused 60 NothingToUndo
| refused 62 BlockOpen
| refused 50 TargetNotPlaced
| refused 51 TwiceInBlock
| refused 55 NoWeights
| refused 69 NoBlock

:list \
| refused 9 DanglingEscape"#;

/// Sessions over the base table.
pub const ON_BASE: &str = r#"reorder-after <U0061>
<U0063>
reorder-end
:key "c"
| ok 1
| 5 | 1 | 2 | |

-- Each line is placed behind the line before, in whichever order they stood.
reorder-after <U0064>
<U0061>
<U0041>
reorder-end
:key "aA"
:undo
:key "aA"
:print
| ok 1
| 7 7 | 1 1 | 2 3 | |
| undone 0
| 4 4 | 1 1 | 2 3 | |
| the base table

reorder-after <U0064>
<U0041>
<U0061>
reorder-end
:key "aA"
:undo
:print
| ok 1
| 8 8 | 1 1 | 2 3 | |
| undone 0
| the base table

-- A section may be left empty.
reorder-after <U0064>
<U002D>
reorder-end
:print
:undo
:print
| ok 1
| the base table to <U0064> <U0064>;<BASE>;<MIN>;IGNORE
| <U002D> IGNORE;IGNORE;IGNORE;<U002D>
| section <PUNCT>
| the base table from order_end
| undone 0
| the base table

-- A block that is refused at its last line changes nothing.
reorder-after <U0061>
<U0063>
<U0064>
<U0062> <U0062>;<X>
reorder-end
:key "c"
| refused 34 NotDeclared
| 7 | 1 | 2 | |

-- A new entry of UNDEFINED, with the weights that are given, and its own where none is.
reorder-after <CAP>
UNDEFINED ;IGNORE;IGNORE;IGNORE
reorder-end
:print
UNDEFINED <BASE>
:print
| ok 1
| the base table to <CAP>
| UNDEFINED ;IGNORE;IGNORE;IGNORE
| the base table from <U0061> <U0061>;<BASE>;<MIN>;IGNORE
| ok 2
| the base table to <CAP>
| UNDEFINED <BASE>;;;
| the base table from <U0061> <U0061>;<BASE>;<MIN>;IGNORE

-- A declaration that was taken back is none, and a refused statement leaves what can be put again.
collating-symbol <X>
:undo
reorder-after <X>
reorder-end
:redo
:undo
collating-symbol <X>
:redo
| ok 1
| undone 0
| refused 50 TargetNotPlaced
| redone 1
| undone 0
| ok 1
| refused 61 NothingToRedo

<U0062> <U0063>
:key "b"
:undo
:key "b"
| ok 1
| 7 | 6 | 6 | @1 6 |
| undone 0
| 6 | 1 | 2 | |

<U0062> <U0062>;"<MIN><CAP>"
:key "ab"
| ok 1
| 4 6 | 3 2 1 | 2 6 | @2 6 |

reorder-after <U0061>
:key "a"
bogus
also <U0063>
reorder-end
reorder-after <U0061>
<U0063>
| refused 62 BlockOpen
| refused 20 UnknownStatement
| refused 63 BlockNotEnded

<U0062>
<U007A> <U0061>
<MIN> IGNORE
<U0062> <U0062>;;;;
reorder-end
:frob
:key
:undo
| refused 55 NoWeights
| refused 54 NotPlaced
| refused 36 SymbolWithWeights
| refused 37 TooManyWeights
| refused 69 NoBlock
| refused 64 UnknownCommand
| refused 21 MissingOperand
| refused 60 NothingToUndo

reorder-after <U0061
<U0063> <U0062>
reorder-end
reorder-after <U0061>
<U0063>
<U0063>
reorder-end
| refused 2 OpenSymbol
| refused 51 TwiceInBlock

:compare "a" "A"
:compare "ab" "a-b"
:compare "a" "a"
:check
| less
| less
| equal
| table entries 9 declared 3 sections 2 levels 4

:key "a-b-"
:key "--a"
:compare "a-b-" "--a"
| 4 6 | 1 1 | 2 2 | @2 9 @2 9 |
| 4 | 1 | 2 | @1 9 @1 9 |
| greater

reorder-after <CAP>
UNDEFINED ;IGNORE;IGNORE;IGNORE
reorder-end
:key "e"
:compare "e" "f"
:compare "e" "a"
| ok 1
| 4+101 | | | |
| less
| less

-- A second name stands for its symbol, wherever it is given.
symbol-equivalence <LOW> <MIN>
symbol-equivalence <SMALL> <LOW>
symbol-equivalence <LOW> <CAP>
symbol-equivalence <Z> <Q>
reorder-after <CAP>
<LOW>
<MIN>
reorder-end
<LOW> IGNORE
reorder-after <CAP>
<SMALL>
reorder-end
<U0062> <U0062>;<LOW>
:key "b"
:check
:history
:undo
:undo
:undo
:undo
:print
| ok 1
| ok 2
| refused 33 DeclaredTwice
| refused 34 NotDeclared
| refused 51 TwiceInBlock
| refused 36 SymbolWithWeights
| ok 3
| ok 4
| 6 | 3 | 6 | @1 6 |
| table entries 9 declared 5 sections 2 levels 4
| 1 equivalence <LOW> <MIN>
| 2 equivalence <SMALL> <LOW>
| 3 block <CAP> 1
| 4 reweight <U0062>
| history 4 0
| undone 3
| undone 2
| undone 1
| undone 0
| the base table

symbol-equivalence <LOW> <MIN>
symbol-equivalence <SMALL> <LOW>
reorder-after <CAP>
<SMALL>
reorder-end
<U0062> <U0062>;<LOW>
:print
| ok 1
| ok 2
| ok 3
| ok 4
| the base table to collating-symbol <CAP>
| symbol-equivalence <LOW> <MIN>
| symbol-equivalence <SMALL> <MIN>
| order_start forward;backward;forward;forward,position
| <BASE>
| <CAP>
| <MIN>
| <U0061> <U0061>;<BASE>;<MIN>;IGNORE
| <U0041> <U0061>;<BASE>;<CAP>;IGNORE
| <U0062> <U0062>;<MIN>;<U0062>;<U0062>
| the base table from <U0063> <U0063>;<BASE>;<MIN>;IGNORE

collating-element <ch> from "ch"
symbol-equivalence <Z> <ch>
| ok 1
| refused 73 NotASymbol

-- A statement is withdrawn unless another one needs it, and is no more to be put again.
collating-symbol <X>
reorder-after <CAP>
<X>
reorder-end
reorder-after <U0061>
<U0063>
reorder-end
<U0062> <U0062>;<X>
:withdraw 2
:withdraw 1
:withdraw 3
:history
:withdraw 0
:withdraw 4
:withdraw x
:withdraw
:key "b"
:undo
:key "b"
:withdraw 2
:redo
| ok 1
| ok 2
| ok 3
| ok 4
| refused 71 StillNeeded 4 38 WeightNotPlaced
| refused 71 StillNeeded 2 34 NotDeclared
| withdrawn 3
| 1 symbol <X>
| 2 block <CAP> 1
| 3 reweight <U0062>
| history 3 0
| refused 72 NoSuchStatement
| refused 72 NoSuchStatement
| refused 29 BadOperand
| refused 21 MissingOperand
| 7 | 4 | 7 | @1 7 |
| undone 2
| 7 | 1 | 2 | |
| withdrawn 1
| refused 61 NothingToRedo

-- The order changes with each statement, and with each that is taken back or put again.
:compare "b" "c"
reorder-after <U0061>
<U0063>
reorder-end
:compare "b" "c"
reorder-after <U0061>
<X>
reorder-end
:compare "b" "c"
:undo
:compare "b" "c"
:redo
:compare "b" "c"
| less
| ok 1
| greater
| refused 34 NotDeclared
| greater
| undone 0
| less
| redone 1
| greater"#;

/// Sessions over the table of sections.
pub const ON_SECTIONS: &str = r#"reorder-section-after <S2> <S1>
:undo
reorder-section-after <S1> <S3>
:list
reorder-section-after <S1> <S1>
reorder-section-after <S1> <Q>
reorder-section-after <Q> <Q>
:history
:undo
:key "b"
| ok 1
| undone 0
| ok 1
| 1 <U0061>
| section <S2>
| 2 <U0063>
| section <S3>
| 3 <U0064>
| section <S1>
| 4 <U0062>
| listed 4
| refused 53 SectionAfterItself
| refused 52 NoSuchSection
| refused 52 NoSuchSection
| 1 section <S1> <S3>
| history 1 0
| undone 0
| 2 |"#;
