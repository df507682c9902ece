//! Answers: what the files give, as it is printed.

ghost use Rattle.std.specs.Prelude.{◌≡◌, ◌≤◌, IfOk, IfErr, List, ℕ};
ghost use Rattle.wcet_io.specs.Causes.{Rose};

use crate::analysis::{Analysis, Refused, analyse_bytes};
use crate::contents::{Contents, FILE_LIMIT, Stopped, read_files};
use crate::refusal::{Refusal, RefusalKind};
use crate::words::Form;
use cache_config::{Profile, read_profile};
use std::alloc::Global;
use wcet_io::Shelf;

/// What the output says of the files.
#[derive(Debug, Drop)]
pub enum Answer {
    /// The analysis of the ELF file under the profile.
    Analysed(Analysis),
    /// The first fault.
    Refused(Refusal),
}

ghost use Rattle.wcet_engine.specs.Answers.{IsAnswer, IsAnswerTo};
ghost use Rattle.wcet_engine.specs.Faults.{GivesProfile, IsAnalysis, TellsFault};
ghost use Rattle.wcet_engine.specs.Given.{Fits, given_form, given_of, read_by};

/// The profile that the text gives, or the plain one where there is no text.
///
/// `Fault` is the text's first fault.
fn profile_of(alloc: Global, contents: &Contents) -> Result<Profile, Refused>
    requires { Fits (given_of contents.now) }
    ensures gives { IfOk result (GivesProfile (given_of contents.now).config) }
    ensures refused { IfErr result (TellsFault (given_of contents.now)) }
{
    match &contents.config {
        None => Ok(Profile::plain(alloc)),
        Some(text) => Ok(read_profile(alloc, text)?),
    }
}

/// The analysis of the ELF file under the profile.
///
/// `Fault` is the files' first fault.
fn analyse_files(alloc: Global, contents: &Contents) -> Result<Analysis, Refused>
    requires { Fits (given_of contents.now) }
    ensures analysed { IfOk result (IsAnalysis (given_of contents.now)) }
    ensures refused { IfErr result (TellsFault (given_of contents.now)) }
{
    let profile = profile_of(alloc, contents)?;
    analyse_bytes(alloc, &contents.elf, &profile)
}

/// The answer for the contents of files.
fn answer_to(alloc: Global, contents: &Contents) -> Result<Answer, Stopped>
    requires { Fits (given_of contents.now) }
    ensures answer { IfOk result (IsAnswerTo (given_of contents.now)) }
    ensures memory { IfErr result (λ e. e ≡ Stopped.Memory) }
{
    match analyse_files(alloc, contents) {
        Ok(analysis) => Ok(Answer::Analysed(analysis)),
        Err(Refused::Fault(refusal)) => Ok(Answer::Refused(refusal)),
        Err(Refused::Memory) => Err(Stopped::Memory),
    }
}

/// The answer for the files of the shelf that the words name.
pub fn answer_for<F: Shelf>(alloc: Global, files: &mut F, form: &Form) -> Result<Answer, Stopped>
    ensures answer { IfOk result (IsAnswer (read_by (F.told files.old) (given_form form.now))) }
    ensures kept { (other : List ℕ) → F.told files.new other ≡ F.told files.old other }
    ensures later { F.faults files.old ≤ F.faults files.new }
    ensures read { result ≡ Err Stopped.Read → Rose (F.faults files.old) (F.faults files.new) }
{
    match read_files(alloc, files, form)? {
        Some(contents) => answer_to(alloc, &contents),
        None => Ok(Answer::Refused(Refusal::at(RefusalKind::TooLong, FILE_LIMIT))),
    }
}
