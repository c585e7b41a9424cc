// The answer to an ID by its values, for C, which has no enum with fields.
ghost use Rattle.std.specs.Prelude.{◌≡◌};
ghost use Rattle.paper.specs.Causes.{cause_number};
ghost use Rattle.rules_format.specs.Ids.{id_refusal, id_values};

use paper::{BlockId, Cause, IdAnswer, IdValues, Spare};

// A refusal: its number, and zeros.
fn refused(cause: Cause) -> IdValues
    ensures { result ≡ id_refusal (cause_number cause) }
{
    IdValues {
        number: layout::number_of(cause),
        section: 0,
        channel: 0,
        dseq: 0,
        dbn: 0,
        arbitrary: 0,
        reserved: 0,
    }
}

// The paper's number and values.
pub(crate) fn values(answer: IdAnswer) -> IdValues
    ensures { result ≡ id_values answer }
{
    match answer {
        IdAnswer::Named(b, spare) => {
            IdValues {
                number: 0,
                section: layout::section_code(b.section),
                channel: b.channel,
                dseq: b.dseq,
                dbn: b.dbn.0,
                arbitrary: spare.arbitrary,
                reserved: spare.reserved,
            }
        }
        IdAnswer::Reserved => refused(Cause::ReservedSection),
        IdAnswer::WrongLength => refused(Cause::LentLength),
    }
}
