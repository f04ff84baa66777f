// The answers of a read and of a delivery in numbers.
ghost use Rattle.std.specs.Prelude.{◌≡◌};
ghost use Rattle.crossing.specs.Delivered.{delivery_numbers, delivery_of};
ghost use Rattle.crossing.specs.Read.{read_numbers, read_of};

// A refusal's number, or 0 with 1 for granted and 0 for denied.
// kept: numbers are the C interface.
#[repr(C)]
#[derive(Clone, Copy)]
pub struct Read {
    pub code: u32,
    pub granted: u32,
}

// Here and below the refusal is any number, with its place where it has one.
// kept: functions by these names, here and below, and no `From`: docs/PROMISES.md promises them, on any number that a refusal has.
pub fn of_read(answer: Result<bool, u32>) -> Read
    ensures { result ≡ read_numbers (read_of answer) }
{
    match answer {
        Ok(granted) => Read {
            code: 0,
            granted: u32::from(granted),
        },
        Err(code) => Read { code, granted: 0 },
    }
}

// A refusal's number with its place, the sheet for 32 and 33 and else 0; or 0 with the delivery's total length.
#[repr(C)]
#[derive(Clone, Copy)]
pub struct Delivered {
    pub code: u32,
    pub place: u32,
    pub length: u32,
}

pub fn of_delivery(delivery: Result<u32, (u32, u32)>) -> Delivered
    ensures { result ≡ delivery_numbers (delivery_of delivery) }
{
    match delivery {
        Ok(length) => Delivered {
            code: 0,
            place: 0,
            length,
        },
        Err((code, place)) => Delivered {
            code,
            place,
            length: 0,
        },
    }
}
