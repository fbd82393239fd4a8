// The operations of requests: how each is read, and what it replies (docs/SPEC.md, 9.1).
use crate::input::{Fault, read_counts, read_number, read_part, read_step, read_table};
use crate::places::{MOST_PLACES, read_places, write_places};
use crate::reply::Reply;
use program::Program;
use reading::Reading;
use refusals::Refusal;
use translation::Mode;

#[derive(Clone, Copy)]
pub enum Operation {
    Check,
    Evaluate,
    Report,
    Step,
    Script,
    TranslateAnew,
    EvaluateReading,
    ReportReading,
    Translate,
    Words,
    Totals,
    Catalogue,
    Follow,
}

impl TryFrom<u8> for Operation {
    type Error = Fault;

    fn try_from(number: u8) -> Result<Operation, Fault> {
        match number {
            1 => Ok(Operation::Check),
            2 => Ok(Operation::Evaluate),
            3 => Ok(Operation::Report),
            4 => Ok(Operation::Step),
            5 => Ok(Operation::Script),
            6 => Ok(Operation::TranslateAnew),
            7 => Ok(Operation::EvaluateReading),
            8 => Ok(Operation::ReportReading),
            16 => Ok(Operation::Translate),
            22 => Ok(Operation::Words),
            23 => Ok(Operation::Totals),
            25 => Ok(Operation::Catalogue),
            28 => Ok(Operation::Follow),
            _ => Err(Fault::NoOperation(number)),
        }
    }
}

impl Operation {
    // Reads the parts of a request, the first buffer that it names into this one, and answers it.
    pub fn answer(self, program: Program<'_>, buffer: &mut [u8]) -> Result<(), Fault> {
        match self {
            Operation::Check => check(program, buffer),
            Operation::Evaluate => evaluate(program, buffer),
            Operation::Report => report(program, buffer),
            Operation::Step => step(program, buffer),
            Operation::Script => script(program, buffer),
            Operation::TranslateAnew => translate(program, Mode::Anew, buffer),
            Operation::EvaluateReading => evaluate_reading(program, buffer),
            Operation::ReportReading => report_reading(program, buffer),
            Operation::Translate => translate(program, Mode::Once, buffer),
            Operation::Words => words(program, buffer),
            Operation::Totals => totals(program, buffer),
            Operation::Catalogue => catalogue(program, buffer),
            Operation::Follow => follow(program, buffer),
        }
    }
}

fn check(program: Program<'_>, buffer: &mut [u8]) -> Result<(), Fault> {
    let (used, table) = read_table(program, buffer)?;
    Reply::from(tables::check(table, used)).write(program)
}

fn evaluate(program: Program<'_>, buffer: &mut [u8]) -> Result<(), Fault> {
    let (used, table) = read_table(program, buffer)?;
    let assignment = read_number(program)?;
    Reply::from(questions::evaluate(table, used, assignment)).write(program)
}

fn report(program: Program<'_>, buffer: &mut [u8]) -> Result<(), Fault> {
    let (used, table) = read_table(program, buffer)?;
    Reply::from(questions::report(table, used)).write(program)
}

fn step(program: Program<'_>, buffer: &mut [u8]) -> Result<(), Fault> {
    let (used, table) = read_table(program, buffer)?;
    let step = read_step(program)?;
    Reply::from(rewriting::step(table, used, step)).write_with(program, table)
}

// What has room for a part or for places is not inlined, so that the stack holds the room of one operation at a time; and the room comes first, since
// what follows a `?` would be cleared twice.
#[inline(never)]
fn script(program: Program<'_>, buffer: &mut [u8]) -> Result<(), Fault> {
    let mut room = io::large_buffer();
    let (used, table) = read_table(program, buffer)?;
    let steps = read_part(program, &mut room)?;
    Reply::from(rewriting::script(table, used, steps)).write_with(program, table)
}

#[inline(never)]
fn translate(program: Program<'_>, mode: Mode, buffer: &mut [u8]) -> Result<(), Fault> {
    let mut room = io::large_buffer();
    let (used, table) = read_table(program, buffer)?;
    let out = read_part(program, &mut room)?;
    Reply::from(rm3::translate(mode, table, used, out)).write_with(program, out)
}

fn evaluate_reading(program: Program<'_>, buffer: &mut [u8]) -> Result<(), Fault> {
    let counts = read_counts(program)?;
    let records = read_part(program, buffer)?;
    let assignment = read_number(program)?;
    Reply::from(Reading::hold(records, counts).evaluate(assignment)).write(program)
}

fn report_reading(program: Program<'_>, buffer: &mut [u8]) -> Result<(), Fault> {
    let counts = read_counts(program)?;
    let records = read_part(program, buffer)?;
    Reply::from(Reading::hold(records, counts).report()).write(program)
}

fn words(program: Program<'_>, buffer: &mut [u8]) -> Result<(), Fault> {
    let (used, table) = read_table(program, buffer)?;
    let first = read_number(program)?;
    place(program, |places| words::words(table, used, first, places))
}

fn totals(program: Program<'_>, buffer: &mut [u8]) -> Result<(), Fault> {
    let (used, table) = read_table(program, buffer)?;
    place(program, |places| words::totals(table, used, places))
}

// Reads the places, and replies how many are put, and then each place.
#[inline(never)]
fn place<F: FnOnce(&mut [u64]) -> Result<usize, Refusal> + Drop>(
    program: Program<'_>,
    put: F,
) -> Result<(), Fault>
    requires { F.IsAlwaysCallable put }
{
    let mut numbers = [[0u8; 8]; MOST_PLACES];
    let mut room = [0u64; MOST_PLACES];
    let places = read_places(program, &mut numbers, &mut room)?;
    Reply::from(put(places)).write(program)?;
    write_places(program, &mut numbers, places)
}

fn catalogue(program: Program<'_>, buffer: &mut [u8]) -> Result<(), Fault> {
    let number = read_number(program)?;
    let out = read_part(program, buffer)?;
    Reply::from(catalogue::catalogue(number, out)).write_with(program, out)
}

#[inline(never)]
fn follow(program: Program<'_>, buffer: &mut [u8]) -> Result<(), Fault> {
    let mut room = io::large_buffer();
    let mut numbers = [[0u8; 2]; MOST_PLACES];
    let mut followed = [0u16; MOST_PLACES];
    let (used, table) = read_table(program, buffer)?;
    let steps = read_part(program, &mut room)?;
    let places = read_places(program, &mut numbers, &mut followed)?;
    Reply::from(rewriting::follow(table, used, steps, places)).write_with(program, table)?;
    write_places(program, &mut numbers, places)
}
