//! What the reports of many searches show together. Each law is a call that does nothing and whose contract is the law.
ghost use Rattle.plan_rule.specs.Yards.{choices};
ghost use Rattle.branch_core.specs.Answers.{RecordsAreSteps};

use code_table::Codes;

/// Where the jobs of a list of reports tile and each report says what it should, the new records of each of the searches
/// are steps against the best of their plans, which is the best plan of the yard.
pub fn records_are_steps(codes: &Codes)
    ensures { RecordsAreSteps (choices codes.now) }
{
    codes.limits();
}
