//! The whole of a page.
ghost use Rattle.std.specs.Prelude.{◌≡◌, ◌≤◌, ◌^◌, ◌++◌, All, IfOk, OnOk, if◌then◌else◌, length, map};
ghost use Rattle.cov_model.specs.Fits.{FitsModel};
ghost use Rattle.html_page.specs.Trees.{content_text};
ghost use Rattle.html_page.specs.believed.Trees.{page_text};
ghost use Rattle.model_page.specs.Parts.{head_text, omitted_part};
ghost use Rattle.model_page.specs.Seen.{words_seen};
ghost use Rattle.model_page.specs.believed.Curves.{picture_of};
ghost use Rattle.model_page.specs.believed.Pages.{page_of};
ghost use Rattle.refutation.specs.Proofs.{omission_meant};
ghost use Rattle.row_text.specs.RowFiles.{suite_seen};
ghost use Rattle.suite_facts.specs.believed.Coverages.{numbers_of};
ghost use Rattle.suite_page.specs.believed.Pictures.{picture_tree};
ghost use Rattle.tuple_index.specs.Plan.{plan_of};

use crate::curve::curve_points;
use crate::omitted::omitted;
use crate::tests::{MOST_SHOWN, put_tests};
use cov_model::TestModel;
use html_page::PageText;
use refutation::Omission;
use row_text::RowFile;
use std::alloc::Global;
use suite_facts::SuiteNumbers;
use suite_page::{
    Picture, put_closing, put_left_out, put_numbers, put_opening, put_picture, put_verdict,
};
use tuple_index::Plan;
use value_text::NoMemory;

/// What is said of a suite.
#[derive(Clone, Copy)]
pub struct PageWords<'a> {
    /// The model file's name.
    pub name: &'a str,
    /// Whether the suite is accepted.
    pub accepted: bool,
    /// The verdict in words (UTF-8, as all of these).
    pub verdict: &'a [u8],
    /// A remark on it, or nothing.
    pub remark: &'a [u8],
    /// The numbers of the suite in sentences. An empty one isn't shown.
    pub numbers: &'a [&'a [u8]],
}

// All that can be covered, where it is known, or else all that is demanded.
fn total_of(numbers: &SuiteNumbers, accepted: bool) -> u64
    ensures { result ≡ (if accepted then numbers.now.covered else numbers.now.demanded) }
{
    if accepted {
        numbers.covered
    } else {
        numbers.demanded
    }
}

// Adds the picture.
fn put_curve(
    alloc: Global,
    page: &mut PageText,
    model: &TestModel,
    plan: &Plan,
    file: &RowFile,
    numbers: &SuiteNumbers,
    accepted: bool,
) -> Result<(), NoMemory>
    requires plan { plan.now ≡ plan_of model.now }
    requires fits { All (λ row. FitsModel model.now row.cells) file.now.rows }
    requires few { length file.now.rows ≤ 2 ^ 20 }
    requires numbers { numbers.now ≡ numbers_of model.now (suite_seen file.now) }
    ensures { OnOk result (page.new ≡ page.old ++ content_text (picture_tree (picture_of model.now (suite_seen file.now) accepted))) }
{
    let points = curve_points(alloc, model, plan, file)?;
    let picture = Picture {
        points: points.as_slice(),
        tests: numbers.tests,
        covered: numbers.covered,
        total: total_of(numbers, accepted),
        is_known: accepted,
    };
    put_picture(alloc, page, &picture)
}

// Adds what is left out.
fn put_omitted(
    alloc: Global,
    page: &mut PageText,
    model: &TestModel,
    omissions: &[Omission],
) -> Result<(), NoMemory>
    ensures { OnOk result (page.new ≡ page.old ++ content_text (omitted_part model.now (map omission_meant omissions.now))) }
{
    let shown = omitted(alloc, model, omissions)?;
    let more = omissions.len().saturating_sub(MOST_SHOWN) as u64;
    put_left_out(page, shown.as_slice(), more)
}

// Adds what stands in the page before the tests.
fn put_head(
    alloc: Global,
    page: &mut PageText,
    model: &TestModel,
    plan: &Plan,
    file: &RowFile,
    numbers: &SuiteNumbers,
    words: &PageWords<'_>,
) -> Result<(), NoMemory>
    requires plan { plan.now ≡ plan_of model.now }
    requires fits { All (λ row. FitsModel model.now row.cells) file.now.rows }
    requires few { length file.now.rows ≤ 2 ^ 20 }
    requires numbers { numbers.now ≡ numbers_of model.now (suite_seen file.now) }
    ensures { OnOk result (page.new ≡ page.old ++ head_text model.now (suite_seen file.now) (words_seen words.now)) }
{
    put_opening(alloc, page, words.name)?;
    put_verdict(
        page,
        words.name,
        words.accepted,
        words.verdict,
        words.remark,
    )?;
    put_numbers(page, words.numbers)?;
    put_curve(alloc, page, model, plan, file, numbers, words.accepted)?;
    Ok(())
}

/// The page of the rows of a file: what is said of them, the curve of what the first ones cover, the tests, and the
/// combinations that a proof leaves out. Plan and file have to be the model's, and the numbers those of the file; a file has
/// at most 2^20 rows.
///
/// # Errors
///
/// `NoMemory` where memory was refused.
pub fn write_page(
    alloc: Global,
    model: &TestModel,
    plan: &Plan,
    file: &RowFile,
    numbers: &SuiteNumbers,
    omissions: &[Omission],
    words: &PageWords<'_>,
) -> Result<Vec<u8>, NoMemory>
    requires plan { plan.now ≡ plan_of model.now }
    requires fits { All (λ row. FitsModel model.now row.cells) file.now.rows }
    requires few { length file.now.rows ≤ 2 ^ 20 }
    requires numbers { numbers.now ≡ numbers_of model.now (suite_seen file.now) }
    ensures { IfOk result (λ bytes. bytes.items ≡ page_text (page_of model.now (suite_seen file.now) (map omission_meant omissions.now) (words_seen words.now))) }
{
    let mut page = PageText::new(alloc);
    put_head(alloc, &mut page, model, plan, file, numbers, words)?;
    put_tests(alloc, &mut page, model, file)?;
    put_omitted(alloc, &mut page, model, omissions)?;
    put_closing(&mut page)?;
    Ok(page.into_bytes())
}
