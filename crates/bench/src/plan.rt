// A plan: what becomes of each write, and the power that it takes away.
ghost use Rattle.bench.specs.Plan.{Known, Decodes, Means, first, later, stays};
ghost use Rattle.std.specs.Prelude.{◌≡◌, true, ◌↔◌, IsTrue};

// What becomes of a write: it is done, or power fails and leaves the old contents, the new ones, or a
// spoiled sector.
#[derive(Clone, Copy, PartialEq, Eq, Debug)]
pub(crate) enum Fate {
    Done,
    Old,
    New,
    Spoiled,
}

// A code that says nothing of a write.
#[derive(Clone, Copy, PartialEq, Eq, Debug)]
pub(crate) struct UnknownCode(u8);

impl TryFrom<u8> for Fate {
    type Error = UnknownCode;

    ghost try_from_gives = { Decodes };

    fn try_from(code: u8) -> Result<Fate, UnknownCode> {
        match code {
            0 => Ok(Fate::Done),
            1 => Ok(Fate::Old),
            2 => Ok(Fate::New),
            3 => Ok(Fate::Spoiled),
            _ => Err(UnknownCode(code)),
        }
    }
}

// Whether each code of the plan says what becomes of a write.
pub(crate) fn known(plan: &[u8]) -> bool
    ensures { IsTrue result ↔ Known plan.now }
{
    plan.iter().all(|code| Fate::try_from(*code).is_ok())
}

// Power that fails where a plan says so. That its codes are known is the device's invariant: a ghost field here
// would be a second one within a `Result` that holds a `&mut`, and the check refuses that.
#[derive(Drop)]
pub(crate) struct Supply<'a> {
    // The codes that are not taken, one for each write, in their order.
    pub codes: &'a [u8],
    pub on: bool,
}

impl Supply<'_> {
    // Takes the next code, and fails unless it says that power stays on, as it does past the end.
    pub(crate) fn take(&mut self) -> Fate
        requires on { self.old.on ≡ true }
        requires known { Known self.old.codes.now }
        ensures means { Means (first self.old.codes.now) result }
        ensures power { self.new.on ≡ stays result }
        ensures took { self.new.codes.now ≡ later self.old.codes.now }
    {
        let Some((code, rest)) = self.codes.split_first() else {
            return Fate::Done;
        };
        let fate = Fate::try_from(*code).unwrap();
        self.codes = rest;
        self.on = fate == Fate::Done;
        fate
    }
}
