//! The names of variables.
ghost use Rattle.marks.specs.Asks.{record_of};
ghost use Rattle.marks.specs.Names.{Beyond, Viewed, qualified, variable_name};
ghost use Rattle.node.specs.declared.faults.TableFault.TheVariants.{Text};
ghost use Rattle.std.specs.Prelude.{◌≡◌, MatchResult};

use crate::asks::KnownNode;
use kind::kinds::{ExprKind, Kind};
use node::faults::{At, TableFault};
use node::records::{Details, Run, Second};
use node::views::View;

fn is_qualified(second: Option<Second>) -> bool
    ensures { result ≡ qualified second }
{
    matches!(second, Some(Second::Namespace(_)))
}

// The name of a variable, where there is one to answer.
fn variable_name(details: &Details, non_qualified: bool) -> Option<Run>
    ensures { result ≡ variable_name non_qualified details.now }
{
    if details.kind != Kind::Expr(ExprKind::Variable) {
        return None;
    }
    if non_qualified && is_qualified(details.second) {
        return None;
    }
    details.first.map(|ident| ident.name)
}

impl<'t> KnownNode<'t, '_> {
    /// Its name where it is a variable, as a view of the table's text; fault 4 where the name ends beyond the text.
    pub(crate) fn variable_name(&self, non_qualified: bool) -> Result<Option<View<'t>>, TableFault>
        ensures { let text = self.now.table.now.text.now in
            let run = variable_name non_qualified (record_of self.now).details in
            MatchResult result (Viewed text run) (λ e. Beyond text run × (e ≡ Text (record { place = 0 }) self.now.n)) }
    {
        let Some(run) = variable_name(&self.record().details, non_qualified) else {
            return Ok(None);
        };
        Ok(Some(View::new(self.table.text(), run).at(self.n)?))
    }
}
