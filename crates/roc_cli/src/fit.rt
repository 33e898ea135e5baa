//! What the laws say of texts, plans, schedules and logs: why a command whose words and files fit is done, and one whose files are none is not.
ghost use Rattle.roc_cli.specs.Inner.Texts.{TextLaws};

use roc_check::laws::{plans_are_accepted, plans_are_unique, refusals_are_unique};
use roc_cluster::laws::{
    cluster_files_keep_the_rules, first_faults_are_unique as cluster_faults_are_unique,
};
use roc_epoch::laws::growth_is_one;
use roc_lang_parse::laws::{text_has_no_fault, tree_is_unique};
use roc_law_audit::laws::honest_verdicts_are_yes;
use roc_log::laws::{logs_are_unique, texts_are_right_or_wrong as logs_are_right_or_wrong};
use roc_replay::laws::{sent_schedules_are_played, sent_schedules_have_no_fault};
use roc_sched::laws::{first_faults_are_unique, lines_are_unique, texts_are_right_or_wrong};

/// The laws of texts, plans, schedules and logs.
pub(crate) fn texts_keep_laws()
    ensures { TextLaws }
{
    tree_is_unique();
    text_has_no_fault();
    plans_are_accepted();
    plans_are_unique();
    refusals_are_unique();
    sent_schedules_have_no_fault();
    sent_schedules_are_played();
    growth_is_one();
    cluster_files_keep_the_rules();
    cluster_faults_are_unique();
    lines_are_unique();
    first_faults_are_unique();
    texts_are_right_or_wrong();
    logs_are_unique();
    logs_are_right_or_wrong();
    honest_verdicts_are_yes();
}
