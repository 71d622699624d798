//! What is printed of the settings of runas_default in which two policies differ.

ghost use Rattle.std.specs.Prelude.{◌≡◌, ◌↔◌, ◌++◌, ℕ, List, codes, map, true, OnOk, IfErr};
ghost use Rattle.std.specs.Option.{option_map};
ghost use Rattle.sudoers_compare.specs.FlatDefaults.{flat_runas_default_in_tables, flat_scope_in_tables};
ghost use Rattle.sudoers_list.specs.Reason.{place_text_on_walk_line};
ghost use Rattle.sudoers_review.specs.ChangedText.{printed_scope, printed_setting, setting_line, sign_of_change, AreSettingLines, IsSettingsText};
ghost use Rattle.sudoers_review.specs.Faults.{IsMemoryOrSizeFault};

use crate::change_lines::{
    ChangeLine, ChangeLines, PlaceOnWalk, RuleChange, TextPart, append_line_end, sign_of,
};
use crate::compare_fault::CompareFault;
use crate::flat_policy::FlatPolicy;
use crate::row_text::TEXT_LIMIT;
use std::alloc::{AllocError, Global};
use sudoers_compare::{FlatRunasDefault, FlatScope, is_same_runas_default};
use sudoers_cvt_spell::{append_param, append_printed_member_list, mark_of_defaults_scope};
use sudoers_line_rows::{Param, RowsOfTable, Setting, Tables};
use sudoers_tree::Operator;

/// Appends `scope`, whose members are rows of `tables`, to `out`, as it stands behind `Defaults`.
pub fn append_flat_scope(
    alloc: Global,
    out: &mut Vec<u8>,
    tables: &Tables,
    scope: &Option<FlatScope>,
) -> Result<(), AllocError>
    ensures { OnOk result (out.new.items ≡ out.old.items ++ printed_scope (option_map (flat_scope_in_tables tables.now) scope.now)) }
{
    let Some(scope) = scope else {
        return Ok(());
    };
    let members = RowsOfTable {
        tables,
        rows: scope.members.as_slice(),
    };
    out.extend_from_slice(mark_of_defaults_scope(scope.kind))?;
    append_printed_member_list(alloc, out, false, scope.kind, &members)
}

/// Appends `setting`, whose members are rows of `tables`, to `out`, as a Defaults line.
fn append_setting(
    alloc: Global,
    out: &mut Vec<u8>,
    tables: &Tables,
    setting: &FlatRunasDefault<'_>,
) -> Result<(), AllocError>
    ensures { OnOk result (out.new.items ≡ out.old.items ++ printed_setting (flat_runas_default_in_tables tables.now setting.now)) }
{
    out.extend_from_slice(b"Defaults")?;
    append_flat_scope(alloc, out, tables, &setting.scope)?;
    out.extend_from_slice(b" ")?;
    let param = Param {
        negated: false,
        name: b"runas_default",
        setting: Some(Setting {
            operator: Operator::Set,
            value: setting.name,
        }),
    };
    append_param(alloc, out, &param)
}

/// Appends to `out` the line on `setting`, of `flat`, to which `change` happened.
fn append_setting_line(
    alloc: Global,
    out: &mut ChangeLines,
    change: RuleChange,
    flat: &FlatPolicy<'_>,
    setting: &FlatRunasDefault<'_>,
) -> Result<(), AllocError>
    ensures { OnOk result (out.new.text.items ≡ out.old.text.items ++ setting_line (sign_of_change change) (place_text_on_walk_line flat.now.policy.now setting.now.line 0)
        (flat_runas_default_in_tables flat.now.tables.now setting.now)) }
{
    out.text.extend_from_slice(sign_of(change))?;
    let start = out.text.len();
    append_setting(alloc, &mut out.text, flat.tables, setting)?;
    let stop = out.text.len();
    let rule = TextPart { start, stop };
    let line = ChangeLine::from_rule(change, rule, PlaceOnWalk::from_line(setting.line));
    append_line_end(alloc, out, flat.policy, line)
}

/// Appends to `out` the lines on the settings of `flat`, to which `change` happened.
fn append_setting_lines(
    alloc: Global,
    out: &mut ChangeLines,
    change: RuleChange,
    flat: &FlatPolicy<'_>,
) -> Result<(), CompareFault>
    ensures lines { OnOk result ((lines : List ℕ) × (out.new.text.items ≡ out.old.text.items ++ lines)
        × AreSettingLines (sign_of_change change) (map (flat_runas_default_in_tables flat.now.tables.now) flat.now.settings.items) lines) }
    ensures fault { IfErr result IsMemoryOrSizeFault }
{
    for setting in flat.settings.as_slice() {
        if out.text.len() > TEXT_LIMIT {
            return Err(CompareFault::TooLarge);
        }
        append_setting_line(alloc, out, change, flat, setting)?;
    }
    Ok(())
}

/// Returns whether both policies have the same settings, in the same order.
fn are_settings_same(old: &FlatPolicy<'_>, new: &FlatPolicy<'_>) -> bool
    ensures { (result ≡ true) ↔ (map (flat_runas_default_in_tables old.now.tables.now) old.now.settings.items ≡ map (flat_runas_default_in_tables new.now.tables.now) new.now.settings.items) }
{
    let others = new.settings.as_slice();
    let settings = old.settings.as_slice();
    if settings.len() != others.len() {
        return false;
    }
    for number in 0..settings.len() {
        if !is_same_runas_default(old.tables, &settings[number], new.tables, &others[number]) {
            return false;
        }
    }
    true
}

/// Appends to `out` the lines on the settings of both policies, or nothing if they are the same.
pub fn append_changed_settings(
    alloc: Global,
    out: &mut ChangeLines,
    old: &FlatPolicy<'_>,
    new: &FlatPolicy<'_>,
) -> Result<(), CompareFault>
    ensures text { OnOk result ((text : List ℕ) × (out.new.text.items ≡ out.old.text.items ++ text)
        × IsSettingsText (map (flat_runas_default_in_tables old.now.tables.now) old.now.settings.items) (map (flat_runas_default_in_tables new.now.tables.now) new.now.settings.items) text) }
    ensures fault { IfErr result IsMemoryOrSizeFault }
{
    if are_settings_same(old, new) {
        return Ok(());
    }
    append_setting_lines(alloc, out, RuleChange::Went, old)?;
    append_setting_lines(alloc, out, RuleChange::Came, new)
}
