ghost use Rattle.std.specs.Prelude.{◌≡◌, IfOk, All};
ghost use Rattle.line_rules.specs.Known.{rows_of};
ghost use Rattle.script_text.specs.Naming.{AreNames};
ghost use Rattle.script_text.specs.Settings.{IsSetting, setting};

use crate::script::Names;
use line_shapes::Keyword;
use plan_text::TidyRows;
use std::alloc::{AllocError, Global};

/// The names of a job, each by its number.
pub fn all_names<'t>(alloc: Global, rows: &TidyRows<'_, 't>) -> Result<Names<'t>, AllocError>
    ensures { IfOk result (AreNames rows.now) }
{
    let workers = rows.names(alloc, Keyword::Worker)?;
    let splits = rows.names(alloc, Keyword::Split)?;
    let documents = rows.names(alloc, Keyword::Doc)?;
    Ok(Names {
        workers,
        splits,
        documents,
    })
}

/// The number that a setting of the head has, or this one where the head has no such line.
pub fn setting_of(rows: &TidyRows<'_, '_>, keyword: Keyword, absent: u64) -> u64
    requires { All IsSetting (rows_of keyword rows.now) }
    ensures { result ≡ setting keyword absent rows.now }
{
    if rows.count(keyword) == 0 {
        absent
    } else {
        rows.amount(keyword, 0, 0)
    }
}
