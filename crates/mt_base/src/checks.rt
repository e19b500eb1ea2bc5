ghost use Rattle.std.specs.Prelude.{◌≡◌};
ghost use Rattle.mt_base.specs.Checks.{check_answer};

/// One check of a list of checks: `Ok` where its test holds, else the refusal.
#[tactic(auto, unfolding(crate::specs::Checks::check_answer))]
pub fn must<F: Drop>(test: bool, refusal: F) -> Result<(), F>
    ensures { result ≡ check_answer (refusal, test) }
{
    if test {
        return Ok(());
    }
    Err(refusal)
}
