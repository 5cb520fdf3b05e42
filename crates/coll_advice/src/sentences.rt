//! What each number of a fault is called, and what to do.
//!
//! The names and the sentences are those of docs/LANGUAGE.md, "All faults", in words that stand in a line behind a number, a name and
//! an identifier; `checkers/advice_of_faults.py` compares them. They begin in lower case, and have no full stop at their end. A new
//! fault is a new row here and there, and a number in `specs/FaultNumbers.antt`.

ghost use Rattle.std.specs.Prelude.{◌≡◌, true, is_some};
ghost use Rattle.coll_advice.specs.FaultNumbers.{is_among, is_fault_number, of_lines, of_grammar, of_tables, of_statements, of_sessions};
ghost use Rattle.coll_advice.specs.FaultNumbers.{of_imports};

/// What is told of a fault, beside its number.
#[derive(Clone, Copy)]
pub struct Advice {
    /// The name of the fault.
    pub name: &'static str,
    /// What to do.
    pub sentence: &'static str,
}

/// The name of the fault with a number, and what to do; nothing where no fault has the number.
pub fn advice_of(number: u8) -> Option<Advice>
    ensures { is_some result ≡ is_fault_number number }
{
    if let Some(told) = line_advice(number) {
        return Some(told);
    }
    if let Some(told) = grammar_advice(number) {
        return Some(told);
    }
    if let Some(told) = table_advice(number) {
        return Some(told);
    }
    if let Some(told) = statement_advice(number) {
        return Some(told);
    }
    if let Some(told) = session_advice(number) {
        return Some(told);
    }
    import_advice(number)
}

// A row.
fn row(name: &'static str, sentence: &'static str) -> Option<Advice>
    ensures { is_some result ≡ true }
{
    Some(Advice { name, sentence })
}

// Those of lines.
fn line_advice(number: u8) -> Option<Advice>
    ensures { is_some result ≡ is_among number of_lines }
{
    match number {
        1 => row(
            "NotUtf8",
            "save the text as UTF-8, or take the bytes out, also in a comment",
        ),
        2 => row(
            "OpenSymbol",
            "close the symbol with >; escape a < that is meant as a character",
        ),
        3 => row("EmptySymbol", "give the name"),
        4 => row(
            "BadName",
            "shorten the name, or take the blank out; close the symbol earlier",
        ),
        5 => row(
            "BadCodePoint",
            "give a code point up to 10FFFF that is no surrogate",
        ),
        6 => row(
            "OpenString",
            "close the string with \", or continue its line by the escape character",
        ),
        8 => row(
            "CharacterConstant",
            "write the character by its code point, as in <U0061>",
        ),
        9 => row(
            "DanglingEscape",
            "take the escape character at the end away, or write the line that it continues",
        ),
        10 => row("LineTooLong", "cut the line, or join fewer of them"),
        11 => row(
            "BadCharDirective",
            "choose one of the characters that are listed, and not the other directive's",
        ),
        12 => row(
            "TooManyLines",
            "drop lines; a device that never ends is refused so",
        ),
        _ => None,
    }
}

// Those of the grammar.
fn grammar_advice(number: u8) -> Option<Advice>
    ensures { is_some result ≡ is_among number of_grammar }
{
    match number {
        20 => row(
            "UnknownStatement",
            "look for a mistyped keyword, a symbol without < and >, a line of deltas in a table (copy, reorder-after), or a command in a delta file",
        ),
        21 => row("MissingOperand", "write what is missing"),
        22 => row(
            "ExtraOperand",
            "take the rest of the line away; weights are parted by semicolons, without ranges (..), and several symbols of one weight stand in quotes",
        ),
        23 => row(
            "BadRule",
            "give each level forward, backward, position, or a direction and position joined by a comma",
        ),
        24 => row("TooManyLevels", "give four levels at most"),
        25 => row("WeightTooLong", "name 32 identifiers at most"),
        26 => row(
            "ElementLength",
            "give 2 to 16 characters; one character needs no element",
        ),
        27 => row(
            "BlockTooLong",
            "cut the block in two, of which the second goes behind the last entry of the first",
        ),
        28 => row(
            "EmptyString",
            "write IGNORE for no weight, and 2 characters at least for an element",
        ),
        29 => row(
            "BadOperand",
            "compare with how the line is spelled: quotes stand around strings alone; weights are parted by ;, and a range (..) has to be written out",
        ),
        _ => None,
    }
}

// Those of tables and deltas.
fn table_advice(number: u8) -> Option<Advice>
    ensures { is_some result ≡ is_among number of_tables }
{
    match number {
        30 => row(
            "NoCategory",
            "write the line LC_COLLATE in UTF-8, with nothing but blanks or a comment behind it",
        ),
        31 => row("NoRules", "write order_start before the first entry"),
        32 => row(
            "RulesDiffer",
            "give all sections the rules of the first order_start, or none",
        ),
        33 => row(
            "DeclaredTwice",
            "choose another name, or drop the second declaration",
        ),
        34 => row("NotDeclared", "declare it with collating-symbol"),
        35 => row(
            "PlacedTwice",
            "drop one of the two lines; a second name is the same as its symbol",
        ),
        36 => row(
            "SymbolWithWeights",
            "drop the weights, also a semicolon alone",
        ),
        37 => row(
            "TooManyWeights",
            "drop what goes beyond the levels of the table, which are four at most",
        ),
        38 => row(
            "WeightNotPlaced",
            "place what the weight names, anywhere in the table or in the same block",
        ),
        39 => row("StringTwice", "drop one of the two elements"),
        40 => row(
            "SectionTwice",
            "choose another name, or go on with an order_start that has none",
        ),
        41 => row(
            "OutsideOrder",
            "write order_start before the line, or order_end before END LC_COLLATE",
        ),
        42 => row("Full", "drop what isn't needed; the limits stand"),
        43 => row(
            "NoEnd",
            "write END LC_COLLATE; look whether the text was cut",
        ),
        _ => None,
    }
}

// Those of statements.
fn statement_advice(number: u8) -> Option<Advice>
    ensures { is_some result ≡ is_among number of_statements }
{
    match number {
        50 => row(
            "TargetNotPlaced",
            "place the target first, or name one that is placed",
        ),
        51 => row(
            "TwiceInBlock",
            "drop the line, or move it to another block: the target or a line before has its identifier",
        ),
        52 => row(
            "NoSuchSection",
            "look for the name with :show of an entry of the section; the first section has none",
        ),
        53 => row("SectionAfterItself", "name another section"),
        54 => row("NotPlaced", "place it by a block"),
        55 => row("NoWeights", "give weights, or move the entry by a block"),
        _ => None,
    }
}

// Those of histories, blocks, commands, texts and devices.
fn session_advice(number: u8) -> Option<Advice>
    ensures { is_some result ≡ is_among number of_sessions }
{
    match number {
        60 => row("NothingToUndo", "nothing: the table is the one at first"),
        61 => row("NothingToRedo", "make the statement again"),
        62 => row(
            "BlockOpen",
            "end the block by reorder-end; put the line before it or behind",
        ),
        63 => row("BlockNotEnded", "write reorder-end before the end"),
        64 => row("UnknownCommand", "look for the commands with :help"),
        65 => row("TextTooLong", "cut the text"),
        66 => row(
            "HistoryFull",
            "go on in a new session, over the table that :print writes",
        ),
        67 => row(
            "ReadFault",
            "look at the file's name, its rights, and the device",
        ),
        68 => row(
            "WriteFault",
            "look at the device, and run it again: what was written is a prefix",
        ),
        69 => row("NoBlock", "write reorder-after, or drop the line"),
        70 => row(
            "OutOfMemory",
            "free memory, and make the line again; what it asks for changed nothing",
        ),
        71 => row(
            "StillNeeded",
            "the reply has the number of a statement that needs this one: withdraw that one before it",
        ),
        72 => row("NoSuchStatement", "look for the number with :history"),
        73 => row(
            "NotASymbol",
            "name the symbol that is meant; an element has no second name",
        ),
        _ => None,
    }
}

// Those of imports.
fn import_advice(number: u8) -> Option<Advice>
    ensures { is_some result ≡ is_among number of_imports }
{
    match number {
        80 => row("CopyOfItself", "take one of the copies away"),
        81 => row(
            "CopyElsewhere",
            "put the text into the folder of the source, and name it alone",
        ),
        82 => row("ConditionNotEnded", "write its endif"),
        83 => row("NoCondition", "take the line away"),
        84 => row("BadRange", "write the ends in their order, and alike"),
        _ => None,
    }
}
