//! What the types of numbers and values say of those that are printed.
ghost use Rattle.std.specs.List.{AllByRecursion};
ghost use Rattle.th_lines.specs.Commands.{IsValue};
ghost use Rattle.th_traces.specs.Tables.{IsNumber};
ghost use Rattle.th_check.specs.Printed.{IsPrinted};

use crate::judged::JudgedCall;
use th_bcast::PictureParts;
use th_model::Value;

// A number of 64 bits is one of a trace.
#[inline(always)]
pub fn is_number(n: u64)
    ensures { IsNumber n }
{
    let _ = n;
}

// The bytes of a value are one of a trace.
#[inline(always)]
pub fn is_value(value: &Value)
    ensures { IsValue value.now }
{
    let _ = value.as_bytes();
}

// Every entry has such numbers and values. Linear in the entries.
pub fn are_entries<C: JudgedCall>(entries: &[(C, C::Reply)])
    ensures { AllByRecursion (IsPrinted C.call_fits C.reply_fits) entries.now }
{
    for (call, reply) in entries {
        call.is_call();
        C::is_reply(reply);
    }
}

// So has every kept value. Linear in them.
pub fn are_kept_values(picture: &PictureParts<Value>)
    ensures { AllByRecursion IsValue picture.now.window.kept }
{
    for value in picture.window().kept() {
        is_value(value);
    }
}
