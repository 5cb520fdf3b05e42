//! A table is surveyed: each of its lines is judged, and those at fault are told and passed over.
//!
//! The lines are put to a builder without their weights, so that a line whose weights are at fault still places its entry, and what the
//! weights name is looked up behind that, in the table that all lines give (`table_weights`). Where the text doesn't end its order or
//! its category, or gives no rules, the builder is ended here.

ghost use Rattle.std.specs.Prelude.{◌≡◌, ◌≢◌, ◌∷◌, ◌++◌, [], map, true, if◌then◌else◌, Err, Ok, IfOk, IfSome, MatchOption, OnOk};
ghost use Rattle.coll_devices.specs.PhysicalLines.{lines_of};
ghost use Rattle.coll_lex.specs.Names.{AreTokens};
ghost use Rattle.coll_nodes.specs.TableLayout.{collation};
ghost use Rattle.coll_nodes.specs.WellFormed.{IsWellFormed};
ghost use Rattle.coll_syntax.specs.Proper.{IsProperTableLine};
ghost use Rattle.coll_texts.specs.BuilderStates.{is_end, line_fault, table_of};
ghost use Rattle.coll_texts.specs.Loading.{state_with};
ghost use Rattle.coll_texts.specs.declared.load_faults.LoadCause.TheVariants as cause;
ghost use Rattle.coll_texts.specs.declared.load_faults.LoadCause.TheVariants.{OutOfMemory};
ghost use Rattle.coll_findings.specs.SurveyedLines.{ended_early, first_lines};
ghost use Rattle.coll_findings.specs.ToldFaults.{AreAmong, AreOnce, Tells, told_fault};
ghost use Rattle.coll_surveys.specs.TableSurveys.{IsEnded, TellsLine, bare_line, begins_order, built_behind, end_faults};
ghost use Rattle.coll_surveys.specs.TableSurveys.{ended_by, ends_table, given_table, judging, left_by_line, left_read};
ghost use Rattle.coll_surveys.specs.TableSurveys.{line_faults, lines_faults, lines_left, load_fault, load_faults, opened_by, opened_if};
ghost use Rattle.coll_surveys.specs.TableSurveys.{outside_faults, ruled_behind, standing_after};
ghost use Rattle.coll_surveys.specs.TableSurveys.{starts_order as stated_start, survey_state, table_lines, told_of_table};
ghost use Rattle.coll_surveys.specs.TableWeights.{table_faults, text_weights};

use crate::standings::{Standing, ends_opened, is_in_order};
use crate::table_weights::survey_weights;
use coll_faults::Fault;
use coll_findings::{
    About, Collected, Declarations, DeclaredName, Opening, Surveyed, TakesLines, Warning,
    advice_on_operands, refused_subject, survey_lines, table_subject,
};
use coll_lex::{LexFault, Line};
use coll_lookups::HashKeys;
use coll_syntax::{OrderLine, SyntaxFault, TableLine, is_word, parse_table_line};
use coll_table::Table;
use coll_texts::{LoadCause, LoadFault, TableBuilder};
use std::alloc::{AllocError, Global};

// A table that is surveyed.
struct TableSurvey {
    alloc: Global,
    builder: TableBuilder,
    told: Collected,
    declarations: Declarations,
    // Whether an `order_start` was accepted, and so the rules are known.
    ruled: bool,
    // Where the next line stands.
    standing: Standing,
}

// What was read of a table, beside what its lines give.
struct ReadTable {
    alloc: Global,
    told: Collected,
    declarations: Declarations,
    ruled: bool,
}

/// Surveys a table, which is input 0.
///
/// Each fault that is told is one of those of its line: of what judging it gives, where it stands, over what the lines before it left, or
/// of its weights, in the table that all lines give. The faults of lines come in their order, and those of weights behind them, in theirs.
pub fn survey_table(alloc: Global, keys: HashKeys, text: &[u8]) -> Result<Surveyed, AllocError>
    ensures once { IfOk result (λ surveyed. AreOnce surveyed.told.faults.items) }
    ensures told { IfOk result (λ surveyed. AreAmong (map told_fault surveyed.told.faults.items) (table_faults text.now)) }
    ensures table { IfOk result (λ surveyed. IfSome surveyed.table (λ table. collation table ≡ given_table text.now)) }
{
    let mut survey = TableSurvey {
        alloc,
        builder: TableBuilder::new(alloc, keys)?,
        told: Collected::new(alloc, keys, 0),
        declarations: Declarations::new(alloc, keys),
        ruled: false,
        standing: Standing::Outside,
    };
    let taken = survey.take_all(text);
    let (builder, read) = survey.into_parts();
    match taken {
        Ok(()) => read.end(builder, text),
        Err(error) => {
            drop(builder);
            drop(read.over(None));
            Err(error)
        }
    }
}

impl ReadTable {
    // Ends a survey of which all lines were taken: the weights of the lines are looked up in the table that they give.
    fn end(mut self, builder: TableBuilder, text: &[u8]) -> Result<Surveyed, AllocError>
        ensures once { IfOk result (λ surveyed. AreOnce surveyed.told.faults.items) }
        ensures told { IfOk result (λ surveyed. Tells self.told.told.faults.items surveyed.told.faults.items
            (text_weights (table_of (ended_by builder)) self.ruled text.now)) }
        ensures table { IfOk result (λ surveyed. IfSome surveyed.table (λ table. collation table ≡ table_of (ended_by builder))) }
    {
        match ended_table(builder) {
            Ok(table) => {
                let looked = self.look_up(text, &table);
                self.over(table).if_done(looked)
            }
            Err(error) => {
                drop(self.over(None));
                Err(error)
            }
        }
    }

    // Looks the weights of the lines up in the table that they give, if they give one, and warns of what is never placed.
    fn look_up(&mut self, text: &[u8], table: &Option<Table>) -> Result<(), AllocError>
        ensures { OnOk result (MatchOption table.now (self.new.told.told.faults.items ≡ self.old.told.told.faults.items)
            (λ table. Tells self.old.told.told.faults.items self.new.told.told.faults.items
            (text_weights (collation table) self.old.ruled text.now))) }
    {
        match table {
            Some(table) => {
                survey_weights(self.alloc, text, table, self.ruled, &mut self.told)?;
                self.declarations.warn_of_unplaced(table, &mut self.told)
            }
            None => Ok(()),
        }
    }

    // What is told, and a table.
    fn over(self, table: Option<Table>) -> Surveyed
        ensures once { AreOnce result.told.faults.items }
        ensures told { result.told.faults.items ≡ self.told.told.faults.items }
        ensures table { result.table ≡ table }
    {
        let ReadTable {
            alloc: _,
            told,
            declarations,
            ruled: _,
        } = self;
        drop(declarations);
        Surveyed {
            told: told.into_told(),
            table,
        }
    }
}

impl TableSurvey {
    // Takes all lines of a text, and tells how it ends where its category doesn't.
    fn take_all(&mut self, text: &[u8]) -> Result<(), AllocError>
        ensures told { OnOk result (Tells (told_of_table self.old) (told_of_table self.new)
            (lines_faults (survey_state self.old) (table_lines text.now)
            ++ end_faults (ended_early ends_table first_lines (lines_of text.now)))) }
        ensures left { OnOk result (survey_state self.new ≡ lines_left (survey_state self.old) (table_lines text.now)) }
    {
        let alloc = self.alloc;
        match survey_lines(alloc, text, self)? {
            Some(end) => tell(LoadFault::from(end), About::Nothing, &mut self.told),
            None => Ok(()),
        }
    }

    // The builder, and what was read beside it.
    fn into_parts(self) -> (TableBuilder, ReadTable)
        ensures builder { result.0 ≡ self.builder }
        ensures told { result.1.told.told.faults.items ≡ told_of_table self }
        ensures ruled { result.1.ruled ≡ self.ruled }
    {
        let TableSurvey {
            alloc,
            builder,
            told,
            declarations,
            ruled,
            standing: _,
        } = self;
        (
            builder,
            ReadTable {
                alloc,
                told,
                declarations,
                ruled,
            },
        )
    }

    // Tells a line that the grammar refuses. One that would open an order opens one.
    fn refuse_line(&mut self, line: &Line, fault: SyntaxFault) -> Result<(), AllocError>
        ensures told { OnOk result (Tells (told_of_table self.old) (told_of_table self.new)
            (load_fault (record { line = line.now.number; cause = cause.Syntax fault }) ∷ [])) }
        ensures left { OnOk result (survey_state self.new
            ≡ left_read (survey_state self.old) line.now.number (begins_order line.now.tokens) (Err fault)) }
    {
        let about = refused_subject(self.alloc, line, fault)?;
        let begins = begins_with_order_start(line);
        self.standing = self.standing.behind_refused(begins);
        open_if(begins, &mut self.builder)?;
        tell_refused(line, fault, about, &mut self.told)
    }

    // Puts a line that the grammar accepts to the builder.
    fn put(&mut self, line: &Line, read: TableLine) -> Result<(), AllocError>
        requires tokens { AreTokens line.now.tokens }
        requires proper { IsProperTableLine read }
        ensures told { OnOk result (Tells (told_of_table self.old) (told_of_table self.new)
            (line_faults self.old.builder self.old.standing line.now.number read)) }
        ensures left { OnOk result (survey_state self.new ≡ left_by_line (survey_state self.old) line.now.number read) }
    {
        let starts = begins_order(&read);
        match self.prepare(line.number, &read) {
            Ok(name) => self.put_bare(line, starts, name, without_weights(read)),
            Err(error) => {
                drop(read);
                Err(error)
            }
        }
    }

    // Puts a line without its weights to the builder, which may open an order, and may declare a name.
    fn put_bare(
        &mut self,
        line: &Line,
        starts: bool,
        name: Option<DeclaredName>,
        bare: TableLine,
    ) -> Result<(), AllocError>
        requires tokens { AreTokens line.now.tokens }
        requires proper { IsProperTableLine bare }
        ensures told { OnOk result (Tells (told_of_table self.old) (told_of_table self.new)
            (load_faults (line_fault self.old.builder (record { number = line.now.number; line = bare })))) }
        ensures standing { self.new.standing ≡ self.old.standing }
        ensures left { OnOk result (self.new.builder ≡ built_behind self.old.builder (record { number = line.now.number; line = bare })
            starts (line_fault self.old.builder (record { number = line.now.number; line = bare }))) }
        ensures ruled { OnOk result (self.new.ruled
            ≡ ruled_behind self.old.ruled starts (line_fault self.old.builder (record { number = line.now.number; line = bare }))) }
    {
        match self.builder.take(line.number, bare) {
            Ok(_) => {
                self.ruled = self.ruled || starts;
                note(line.number, name, &mut self.declarations)
            }
            Err(fault) => {
                drop(name);
                self.refuse_read(line, starts, fault)
            }
        }
    }

    // Prepares to put a line to the builder, and answers the name that it declares. The builder is then what judges the line.
    fn prepare(&mut self, number: u32, read: &TableLine) -> Result<Option<DeclaredName>, AllocError>
        ensures told { OnOk result (Tells (told_of_table self.old) (told_of_table self.new)
            (outside_faults self.old.standing number read.now)) }
        ensures judging { OnOk result (self.new.builder ≡ judging self.old.builder self.old.standing read.now) }
        ensures standing { OnOk result (self.new.standing ≡ standing_after self.old.standing read.now) }
        ensures ruled { self.new.ruled ≡ self.old.ruled }
    {
        if let TableLine::Script = read {
            self.told.warn(Warning::ScriptWithoutEffect, number, None)?;
        }
        make_way(
            self.standing,
            number,
            read,
            &mut self.builder,
            &mut self.told,
        )?;
        self.standing = self.standing.behind(read);
        declared_name(read)
    }

    // Tells a line that the builder refuses, unless its rules differ where no line of the text gave any: they are then those of an order
    // that was opened for a line outside of one. One that would open an order opens one.
    fn refuse_read(&mut self, line: &Line, starts: bool, fault: LoadFault) -> Result<(), AllocError>
        requires { AreTokens line.now.tokens }
        ensures memory { OnOk result (fault.cause ≢ OutOfMemory) }
        ensures told { OnOk result (Tells (told_of_table self.old) (told_of_table self.new) (load_fault fault ∷ [])) }
        ensures standing { self.new.standing ≡ self.old.standing }
        ensures ruled { self.new.ruled ≡ self.old.ruled }
        ensures left { OnOk result (self.new.builder ≡ opened_if starts self.old.builder) }
    {
        if let LoadCause::OutOfMemory = fault.cause {
            return Err(AllocError);
        }
        open_if(starts, &mut self.builder)?;
        if !self.ruled && matches!(fault.cause, LoadCause::RulesDiffer) {
            return Ok(());
        }
        let about = subject_again(self.alloc, line, fault.cause)?;
        tell(fault, about, &mut self.told)
    }
}

impl TakesLines for TableSurvey {
    ghost takes = { TellsLine };

    ghost ends = { ends_table };

    // What is told of a line is what judging it gives where it stands, but for its weights.
    fn take(&mut self, line: &Line, _opening: Opening) -> Result<bool, AllocError> {
        match parse_table_line(self.alloc, line) {
            Ok(read) => {
                let ends = ends_category(&read);
                self.put(line, read)?;
                Ok(ends)
            }
            Err(SyntaxFault::OutOfMemory) => Err(AllocError),
            Err(fault) => {
                self.refuse_line(line, fault)?;
                Ok(false)
            }
        }
    }

    fn refuse(
        &mut self,
        number: u32,
        _opening: Opening,
        fault: LexFault,
    ) -> Result<(), AllocError> {
        let fault = LoadFault {
            line: number,
            cause: LoadCause::from(fault),
        };
        tell(fault, About::Nothing, &mut self.told)
    }
}

// Tells a line that the grammar refuses, and how it is written.
fn tell_refused(
    line: &Line,
    fault: SyntaxFault,
    about: About,
    told: &mut Collected,
) -> Result<(), AllocError>
    ensures { OnOk result (Tells told.old.told.faults.items told.new.told.faults.items
        (load_fault (record { line = line.now.number; cause = cause.Syntax fault }) ∷ [])) }
{
    let said = advice_on_operands(line, fault.number());
    let fault = LoadFault {
        line: line.number,
        cause: LoadCause::Syntax(fault),
    };
    told.tell_saying(fault.line, fault.line, Fault::Load(fault), about, said)
}

// Tells a fault of the table.
fn tell(fault: LoadFault, about: About, told: &mut Collected) -> Result<(), AllocError>
    ensures { OnOk result (Tells told.old.told.faults.items told.new.told.faults.items (load_fault fault ∷ [])) }
{
    told.tell(fault.line, fault.line, Fault::Load(fault), about)
}

// Tells a line that stands outside of an order and is to stand in one, and opens one for it, so that those behind it aren't refused for
// want of one. An order like that is closed again before the text opens one, or ends, so that this isn't refused for it.
fn make_way(
    standing: Standing,
    number: u32,
    read: &TableLine,
    builder: &mut TableBuilder,
    told: &mut Collected,
) -> Result<(), AllocError>
    ensures told { OnOk result (Tells told.old.told.faults.items told.new.told.faults.items (outside_faults standing number read.now)) }
    ensures judging { OnOk result (builder.new ≡ judging builder.old standing read.now) }
{
    match standing {
        Standing::Outside if is_in_order(read) => {
            let fault = LoadFault {
                line: number,
                cause: LoadCause::OutsideOrder,
            };
            let about = table_subject(read, fault.cause)?;
            tell(fault, about, told)?;
            open(builder)
        }
        Standing::Opened if ends_opened(read) => take_own(builder, TableLine::OrderEnd),
        _ => Ok(()),
    }
}

// Notes the name that a line declares, if it declares one.
fn note(
    number: u32,
    name: Option<DeclaredName>,
    declarations: &mut Declarations,
) -> Result<(), AllocError> {
    match name {
        Some(name) => declarations.declare(number, name),
        None => Ok(()),
    }
}

// What a line is about that the builder refuses for a cause. It is read once more for that.
fn subject_again(alloc: Global, line: &Line, cause: LoadCause) -> Result<About, AllocError>
    requires { AreTokens line.now.tokens }
{
    match parse_table_line(alloc, line) {
        Ok(read) => {
            let about = table_subject(&read, cause);
            drop(read);
            about
        }
        Err(_) => Err(AllocError),
    }
}

// The name that a line declares, if it declares a symbol or an element, in new memory.
fn declared_name(line: &TableLine) -> Result<Option<DeclaredName>, AllocError> {
    match line {
        TableLine::Symbol(name) => {
            let name = name.try_copy()?;
            Ok(Some(DeclaredName::Symbol(name)))
        }
        TableLine::Element { name, .. } => {
            let name = name.try_copy()?;
            Ok(Some(DeclaredName::Element(name)))
        }
        _ => Ok(None),
    }
}

// Whether a line opens an order.
fn begins_order(line: &TableLine) -> bool
    ensures { result ≡ stated_start line.now }
{
    matches!(line, TableLine::OrderStart { .. })
}

// Whether the first token of a line is `order_start`.
fn begins_with_order_start(line: &Line) -> bool
    ensures { result ≡ begins_order line.now.tokens }
{
    match line.tokens.get().first() {
        Some(first) => is_word(first, "order_start"),
        None => false,
    }
}

// Whether a line ends the category.
fn ends_category(line: &TableLine) -> bool
    ensures { result ≡ is_end line.now }
{
    matches!(line, TableLine::EndCategory)
}

// A line without the weights that it gives.
fn without_weights(line: TableLine) -> TableLine
    requires { IsProperTableLine line }
    ensures proper { IsProperTableLine result }
    ensures bare { result ≡ bare_line line }
{
    match line {
        TableLine::Order(OrderLine { id, weights }) => {
            drop(weights);
            TableLine::Order(OrderLine { id, weights: None })
        }
        other => other,
    }
}

// The table of a builder that has taken all lines, also where they end no order or no category, or give no rules.
fn ended_table(mut builder: TableBuilder) -> Result<Option<Table>, AllocError>
    ensures { IfOk result (λ ended. IfSome ended (λ table. collation table ≡ table_of (ended_by builder))) }
{
    if end_builder(&mut builder)? {
        return Ok(Some(Table::built(builder)));
    }
    drop(builder);
    Ok(None)
}

// Ends a builder, and answers whether it ended: an order is closed that is open, and rules are given where there are none.
fn end_builder(builder: &mut TableBuilder) -> Result<bool, AllocError>
    ensures well_formed { IfOk result (λ ended. ended ≡ true → IsWellFormed (table_of builder.new)) }
    ensures ended { IfOk result (λ ended. ended ≡ true → builder.new ≡ ended_by builder.old) }
{
    if end_category(builder)? {
        return Ok(true);
    }
    open(builder)?;
    take_own(builder, TableLine::OrderEnd)?;
    end_category(builder)
}

// Ends the category of a builder, and answers whether it ended.
fn end_category(builder: &mut TableBuilder) -> Result<bool, AllocError>
    ensures well_formed { IfOk result (λ ended. ended ≡ true → IsWellFormed (table_of builder.new)) }
    ensures ended { IfOk result (IsEnded builder.old builder.new) }
{
    match builder.take(0, TableLine::EndCategory) {
        Ok(ended) => Ok(ended),
        Err(
            LoadFault {
                cause: LoadCause::OutOfMemory,
                ..
            },
        ) => Err(AllocError),
        Err(_) => Ok(false),
    }
}

// Opens an order, if one is to be opened.
fn open_if(opens: bool, builder: &mut TableBuilder) -> Result<(), AllocError>
    ensures { OnOk result (builder.new ≡ opened_if opens builder.old) }
{
    if !opens {
        return Ok(());
    }
    open(builder)
}

// Opens an order, with the rules that stand, or else one level.
fn open(builder: &mut TableBuilder) -> Result<(), AllocError>
    ensures { OnOk result (builder.new ≡ opened_by builder.old) }
{
    let start = TableLine::OrderStart {
        section: None,
        rules: None,
    };
    take_own(builder, start)
}

// Puts a line to a builder that is none of the text, and that it can't refuse.
fn take_own(builder: &mut TableBuilder, line: TableLine) -> Result<(), AllocError>
    requires { IsProperTableLine line }
    ensures { OnOk result (builder.new ≡ state_with builder.old 0 line) }
{
    match builder.take(0, line) {
        Ok(_) => Ok(()),
        Err(_) => Err(AllocError),
    }
}
