ghost use Rattle.std.specs.Prelude.{◌≡◌, Ok, OnErr};
ghost use Rattle.engine.specs.declared.order.Status.TheVariants.{Done, Refused, Random};

use step_model::Fault;

/// How an order was served: as asked, by a line that says why it is refused, or by a random target.
#[derive(Clone, Copy, Debug, PartialEq, Eq)]
pub enum Status {
    Done,
    Refused,
    Random,
}

/// The exit status of a program that was to serve an order, and did or failed so.
pub fn exit_status(end: Result<Status, Fault>) -> u8
    ensures done { end ≡ Ok Done → result ≡ 0 }
    ensures failed { OnErr end (result ≡ 1) }
    ensures refused { end ≡ Ok Refused → result ≡ 2 }
    ensures random { end ≡ Ok Random → result ≡ 3 }
{
    match end {
        Ok(Status::Done) => 0,
        Err(_) => 1,
        Ok(Status::Refused) => 2,
        Ok(Status::Random) => 3,
    }
}
