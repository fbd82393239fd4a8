// The places of a request and of its reply: numbers of two bytes each, or of eight, the low byte first.
ghost use Rattle.std.specs.Prelude.{◌<◌, ◌≤◌, length, IfOk};

use crate::input::{Fault, fill, read_number};
use crate::reply::write;
use program::Program;

// The most places that a request may have.
pub const MOST_PLACES: usize = 8192;

// A number that a place holds, by its bytes, the low one first.
pub trait Place<const WIDTH: usize>: Copy {
    fn of(bytes: [u8; WIDTH]) -> Self;

    fn bytes(self) -> [u8; WIDTH];
}

impl Place<2> for u16 {
    fn of(bytes: [u8; 2]) -> u16 {
        u16::from_le_bytes(bytes)
    }

    fn bytes(self) -> [u8; 2] {
        self.to_le_bytes()
    }
}

impl Place<8> for u64 {
    fn of(bytes: [u8; 8]) -> u64 {
        u64::from_le_bytes(bytes)
    }

    fn bytes(self) -> [u8; 8] {
        self.to_le_bytes()
    }
}

// A count, and then so many numbers, which go to the first places by way of their bytes.
pub(crate) fn read_places<'a, const WIDTH: usize, P: Place<WIDTH>>(
    program: Program<'_>,
    numbers: &mut [[u8; WIDTH]; MOST_PLACES],
    places: &'a mut [P; MOST_PLACES],
) -> Result<&'a mut [P], Fault>
    requires { (0 < WIDTH) × (WIDTH ≤ 8) }
    ensures { IfOk result (λ part. length part.now ≤ 8192) }
{
    let count = read_number(program)?;
    let places = places
        .get_mut(..count as usize)
        .ok_or(Fault::TooMany(count))?;
    let numbers = &mut numbers[..places.len()];
    fill(program, numbers.as_flattened_mut())?;
    for (place, number) in places.iter_mut().zip(numbers.iter()) {
        *place = P::of(*number);
    }
    Ok(places)
}

// Writes each place, by way of their bytes.
pub(crate) fn write_places<const WIDTH: usize, P: Place<WIDTH>>(
    program: Program<'_>,
    numbers: &mut [[u8; WIDTH]; MOST_PLACES],
    places: &[P],
) -> Result<(), Fault>
    requires { (0 < WIDTH) × (WIDTH ≤ 8) × (length places.now ≤ 8192) }
{
    let numbers = &mut numbers[..places.len()];
    for (number, place) in numbers.iter_mut().zip(places) {
        *number = place.bytes();
    }
    write(program, numbers.as_flattened())
}
