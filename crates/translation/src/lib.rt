// The records of RM3 by value: the 27 patterns of a gate's edges, and the operations.
#![tactic(auto)]

ghost use Rattle.std.specs.Prelude.{◌≡◌, false, ◌<◌};
ghost use Rattle.majority.specs.Table.{output as output_record};
ghost use Rattle.translation.specs.Rm3.{operation as operation_record};
ghost use Rattle.translation.specs.Translate.{class_of, needs_helper, in_order_of};
ghost use Rattle.translation.specs.Patterns.{class_number, pattern_of};

use majority::{OUTPUT, Record, inverted, node};

// The kind of an operation's record.
pub const OPERATION: u8 = 4;

// An edge is constant, or plain or inverted on a node from 1 up.
#[derive(Clone, Copy, Debug, PartialEq, Eq)]
pub enum Class {
    Constant,
    Plain,
    Inverted,
}

impl Class {
    // The class of an edge.
    #[tactic(auto, unfolding(crate::specs::Translate::class_of))]
    pub fn of(edge: u16) -> Class
        ensures { result ≡ class_of edge }
    {
        if node(edge) == 0 {
            return Class::Constant;
        }
        if inverted(edge) {
            return Class::Inverted;
        }
        Class::Plain
    }

    // The digit of a class in the number of a pattern.
    pub fn number(self) -> usize
        ensures { (result ≡ class_number self) × (result < 3) }
    {
        self as usize
    }
}

// Whether a node's helper is made anew at each need, or once, at the first, and used again.
#[derive(Clone, Copy, Debug, PartialEq, Eq)]
pub enum Mode {
    Anew,
    Once,
}

// The middle place, counted from 1, and whether the first, second and third edge need a helper.
#[derive(Clone, Copy, Debug, PartialEq, Eq)]
pub struct Pattern {
    pub middle: u8,
    pub first: bool,
    pub second: bool,
    pub third: bool,
}

// For the classes a, b and c, at 9 * a + 3 * b + c: the middle place, with 4, 8 and 16 for helpers of the three edges.
const PATTERNS: [u8; 27] = [
    1, // constant, constant, constant
    1, // constant, constant, plain
    3, // constant, constant, inverted
    1, // constant, plain, constant
    1, // constant, plain, plain
    3, // constant, plain, inverted
    2, // constant, inverted, constant
    2, // constant, inverted, plain
    18, // constant, inverted, inverted
    2, // plain, constant, constant
    2, // plain, constant, plain
    3, // plain, constant, inverted
    3, // plain, plain, constant
    10, // plain, plain, plain
    3, // plain, plain, inverted
    2, // plain, inverted, constant
    2, // plain, inverted, plain
    18, // plain, inverted, inverted
    1, // inverted, constant, constant
    1, // inverted, constant, plain
    17, // inverted, constant, inverted
    1, // inverted, plain, constant
    1, // inverted, plain, plain
    17, // inverted, plain, inverted
    9, // inverted, inverted, constant
    9, // inverted, inverted, plain
    25, // inverted, inverted, inverted
];

// The pattern of a gate.
#[tactic(auto, using(crate::proofs::PatternTable::pattern_at))]
pub fn pattern_of(gate: Record) -> Pattern
    ensures { result ≡ pattern_of gate }
{
    let a = Class::of(gate.e1).number();
    let b = Class::of(gate.e2).number();
    let c = Class::of(gate.e3).number();
    let packed = PATTERNS[9 * a + 3 * b + c];
    Pattern {
        middle: packed % 4,
        first: packed / 4 % 2 == 1,
        second: packed / 8 % 2 == 1,
        third: packed / 16 % 2 == 1,
    }
}

// An output's edge needs a helper.
pub fn output_helped(edge: u16) -> bool
    ensures { result ≡ needs_helper false (class_of edge) }
{
    Class::of(edge) == Class::Inverted
}

// The operation of a block.
pub fn operation(block: u8, x: u16, y: u16, z: u16) -> Record
    ensures { result ≡ operation_record block x y z }
{
    Record {
        kind: OPERATION,
        block,
        e1: x,
        e2: y,
        e3: z,
    }
}

pub fn output(operand: u16) -> Record
    ensures { result ≡ output_record operand }
{
    Record {
        kind: OUTPUT,
        block: 0,
        e1: operand,
        e2: 0,
        e3: 0,
    }
}

// The operation of a gate of this block with this middle place, whose edges have these operands.
pub fn in_order(block: u8, middle: u8, first: u16, second: u16, third: u16) -> Record
    ensures { result ≡ in_order_of block middle first second third }
{
    let (x, y, z) = match middle {
        1 => (second, first, third),
        2 => (first, second, third),
        _ => (first, third, second),
    };
    operation(block, x, y, z)
}
