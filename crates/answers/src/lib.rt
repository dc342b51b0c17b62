// What an entry answers, as definitions: specs/Answer.antt; and the number that a host in C is told.
#![tactic(auto)]

ghost use Rattle.std.specs.Prelude.{◌≡◌, OnOk, IfErr};

// 0, or the number of the refusal.
pub fn code<T: Drop, E: Into<u32>>(answer: Result<T, E>) -> u32
    ensures done { OnOk answer (result ≡ 0) }
    ensures refused { IfErr answer (λ why. E.converts why result) }
{
    match answer {
        Ok(_) => 0,
        Err(why) => why.into(),
    }
}
