//! For how long changes are kept for a change stream.
ghost use Rattle.std.specs.Prelude.{◌≡◌, IfOk, IsTrue};
ghost use Rattle.std.specs.Result.{result_err};
ghost use Rattle.bt_entry.specs.Grammar.{is_retention};
ghost use Rattle.bt_table_replies.specs.Tables.{retention_refusal, retention_used};

use bt_messages::Refusal;

const DAY: i64 = 86_400_000_000;

/// The retention to use, in microseconds, where one of one day to seven days or none was asked for
/// (`google.bigtable.admin.v2.ChangeStreamConfig.retention_period`). Without one it is 0.
pub(crate) fn lawful_retention(asked: Option<i64>) -> Result<u64, Refusal>
    ensures exact { result_err result ≡ retention_refusal asked }
    ensures used { IfOk result (λ r. r ≡ retention_used asked) }
    ensures lawful { IfOk result (λ r. IsTrue (is_retention r)) }
{
    match asked {
        None => Ok(0),
        Some(retention) if retention >= DAY && retention <= 7 * DAY => Ok(retention as u64),
        Some(_) => Err(Refusal::BadRetention),
    }
}
