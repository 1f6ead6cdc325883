//! A session: the tables of many definitions of the same facts.
ghost use Rattle.std.specs.Prelude.{◌≡◌, ◌++◌, ◌∷◌, List, Option, option_map, OnOk, IfOk, None, string_bytes, flat_map};
ghost use Rattle.std.specs.List.{list_any};
ghost use Rattle.std.specs.HashMap.{get};
ghost use Rattle.hir_types.specs.declared.ids.DefWithBodyId.{DefWithBodyId};
ghost use Rattle.hir_facts.specs.Bodies.{HasCarriedBody, body_id_of};
ghost use Rattle.infer_result.specs.declared.result.InferenceResult.{InferenceResult};
ghost use Rattle.infer_result.specs.Report.{line};
ghost use Rattle.infer_run.specs.Reports.{AreMade, Fits, IsReportOn, def_eq};
ghost use Rattle.infer_run.specs.Request.{IsSessionDue, answer_text, is_complaint, no_table, status_by};

use crate::table::infer;
use hir_facts::{DefWithBodyId, Facts};
use infer_report::{count_complaints, write_report};
use std::alloc::{AllocError, Global};
use std::collections::HashMap;

/// The report on a table, and whether something is complained of in it.
#[derive(Drop)]
pub struct Report {
    text: String,
    has_complaint: bool,
}

/// The report on a definition's table, which is let go.
fn report_on(alloc: Global, facts: &Facts, def: DefWithBodyId) -> Result<Report, AllocError>
    requires { HasCarriedBody facts.now def }
    ensures { IfOk result (λ r. IsReportOn facts.now def r) }
{
    let table = infer(alloc, facts, def)?;
    let text = write_report(alloc, def, facts, &table)?;
    let has_complaint = count_complaints(&table) > 0;
    Ok(Report {
        text,
        has_complaint,
    })
}

/// Makes the report on a definition with a body that is carried of which there is none yet.
fn add_report(
    alloc: Global,
    facts: &Facts,
    def: DefWithBodyId,
    reports: &mut HashMap<DefWithBodyId, Report>,
) -> Result<(), AllocError>
    ensures { OnOk result ((seen : List DefWithBodyId) → AreMade facts.now seen reports.old → AreMade facts.now (def ∷ seen) reports.new) }
{
    if !facts.has_carried_body(def) || reports.contains_key(&def) {
        return Ok(());
    }
    let report = report_on(alloc, facts, def)?;
    reports.insert(def, report)?;
    Ok(())
}

/// The reports on those of the definitions that have a body that is carried.
fn make_reports(
    alloc: Global,
    facts: &Facts,
    defs: &[DefWithBodyId],
) -> Result<HashMap<DefWithBodyId, Report>, AllocError>
    ensures { IfOk result (λ reports. AreMade facts.now defs.now reports) }
{
    let mut reports = HashMap::new(alloc);
    for def in defs {
        add_report(alloc, facts, *def, &mut reports)?;
    }
    Ok(reports)
}

/// Why there is no report on a definition, as a line.
fn no_report(facts: &Facts, def: DefWithBodyId) -> &'static str
    ensures { result.now ≡ line (no_table (body_id_of facts.now def)) }
{
    match facts.body_id(def) {
        Some(_) => "not carried\n",
        None => "no body\n",
    }
}

/// Writes the report on a definition, or why there is none, and tells whether that is complained of.
fn push_answer(
    text: &mut String,
    facts: &Facts,
    def: DefWithBodyId,
    report: Option<&Report>,
) -> Result<bool, AllocError>
    ensures { (a : Option InferenceResult) → Fits facts.now def (option_map (λ r. r.now) report.entry) a
        → IfOk result (λ c. (c ≡ is_complaint a) × (string_bytes text.new ≡ string_bytes text.old ++ answer_text facts.now def a)) }
{
    match report {
        Some(report) => {
            text.push_str(report.text.as_str())?;
            Ok(report.has_complaint)
        }
        None => {
            text.push_str(no_report(facts, def))?;
            Ok(true)
        }
    }
}

/// Writes what each definition is answered with, and tells whether something is complained of.
fn push_answers(
    text: &mut String,
    facts: &Facts,
    defs: &[DefWithBodyId],
    reports: &HashMap<DefWithBodyId, Report>,
) -> Result<bool, AllocError>
    ensures { (answers : DefWithBodyId → Option InferenceResult)
        → ((d : DefWithBodyId) → Fits facts.now d (get def_eq reports.now d) (answers d))
        → IfOk result (λ c. (c ≡ list_any (λ d. is_complaint (answers d)) defs.now)
        × (string_bytes text.new ≡ string_bytes text.old ++ flat_map (λ d. answer_text facts.now d (answers d)) defs.now)) }
{
    let mut complains = false;
    for def in defs {
        complains |= push_answer(text, facts, *def, reports.get(def))?;
    }
    Ok(complains)
}

/// The text that is due for a session, and whether something is complained of in it. Each definition is inferred
/// once, and its table let go before the next is made.
pub fn session_text(
    alloc: Global,
    facts: &Facts,
    defs: &[DefWithBodyId],
) -> Result<(String, bool), AllocError>
    ensures { IfOk result (λ x. IsSessionDue facts.now defs.now None (string_bytes x.0) (status_by x.1)) }
{
    let reports = make_reports(alloc, facts, defs)?;
    let mut text = String::new(alloc);
    let complains = push_answers(&mut text, facts, defs, &reports)?;
    let count = reports.len();
    writeln!(&mut text, "inferred {count}")?;
    Ok((text, complains))
}
