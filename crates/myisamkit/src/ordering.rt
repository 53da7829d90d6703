//! What is said of a table that is not analyzed or sorted.
ghost use Rattle.std.specs.Prelude.{◌≡◌, ◌≢◌, string_bytes, IfOk, IfErr};
ghost use Rattle.myi_order.specs.Faults as order;
ghost use Rattle.myisamkit.specs.Stops.{status_of_stop};
ghost use Rattle.myisamkit.specs.Statuses.{IsFault, faults_told};
ghost use Rattle.myisamkit.specs.Lines as spec;
ghost use Rattle.myisamkit.specs.Turns.{order_status};

use crate::lines::{absent_line, finding_lines, no_key_line, reason_of, refused_line};
use crate::status::{Status, Stop};
use myi_order::OrderFault;
use std::alloc::Global;

/// What is said of a table that is not sorted by the key of this number, or is not analyzed; then it is 0.
pub(crate) fn not_ordered(
    alloc: Global,
    name: &str,
    key: u8,
    fault: OrderFault,
) -> Result<(Status, String), Stop>
    ensures said { IfOk result (λ r. string_bytes r.1 ≡ spec.order_line name.now key fault) }
    ensures status { IfOk result (λ r. r.0 ≡ order_status fault) }
    ensures plain { IfOk result (λ r. IsFault r.0 → ⊥) }
    ensures usage { IfOk result (λ r. r.0 ≢ Status.Usage) }
    ensures refusal { IfOk result (λ r. order.CutsOff fault → ⊥) }
    ensures file { IfErr result (λ s. s ≡ Stop.File → fault ≡ OrderFault.File) }
    ensures sink { IfErr result (λ s. s ≢ Stop.Sink) }
    ensures told { IfErr result (λ s. faults_told (status_of_stop s) ≡ order.faults_told fault) }
{
    match fault {
        OrderFault::Absent(file) => Ok((Status::Absent, absent_line(alloc, name, file)?)),
        OrderFault::Def(fault) => {
            Ok((
                Status::Refused,
                refused_line(alloc, name, reason_of(fault))?,
            ))
        }
        OrderFault::NoKey { .. } => Ok((Status::Refused, no_key_line(alloc, name, key)?)),
        OrderFault::Damaged(finding) => {
            Ok((Status::Findings, finding_lines(alloc, name, &[finding])?))
        }
        OrderFault::File => Err(Stop::File),
        OrderFault::Memory => Err(Stop::Memory),
    }
}
