//! The ledger of a whole story.
ghost use Rattle.std.specs.Prelude.{◌≡◌, ◌++◌, ◌∷◌, [], OnOk, IfOk};
ghost use Rattle.mq_history.specs.declared.story.ManagerPlaces.{ManagerPlaces};
ghost use Rattle.mq_spec_network.specs.Ledger.{ledger};
ghost use Rattle.mq_spec_network.specs.Standing.{opening_ledger};
ghost use Rattle.mq_story.specs.Spots.{line_at, lines_of};
ghost use Rattle.mq_net_ledger.specs.Opened.{AreOpened};
ghost use Rattle.mq_net_ledger.specs.Spots.{ledger_spots};

use crate::opening::begun;
use crate::posting::posted;
use mq_base::{Items, NoMemory};
use mq_history::{History, ManagerPlaces, Scenario};
use mq_net_books::{Account, Books};
use mq_story::{Spot, entry_at};
use std::alloc::Global;

/// The entry at a spot is posted, if there is one.
#[tactic(auto, using(crate::proofs::SpotLaws::spot_none, crate::proofs::SpotLaws::spot_entry))]
fn post_spot<'a>(
    books: &mut Books<'a>,
    alloc: Global,
    histories: &'a [History],
    spot: Spot,
) -> Result<(), NoMemory>
    ensures { OnOk result (books.new ≡ ledger books.old (line_at histories.now spot)) }
{
    match entry_at(histories, spot) {
        None => Ok(()),
        Some(entry) => posted(books, alloc, spot.manager, entry),
    }
}

fn post_spots<'a>(
    books: &mut Books<'a>,
    alloc: Global,
    histories: &'a [History],
    spots: &[Spot],
) -> Result<(), NoMemory>
    ensures { OnOk result (books.new ≡ ledger_spots histories.now spots.now books.old) }
{
    'posting: for spot in spots {
        post_spot(books, alloc, histories, *spot)?;
    }
    Ok(())
}

fn put_places(
    out: &mut Items<ManagerPlaces>,
    alloc: Global,
    account: Account,
) -> Result<(), NoMemory>
    ensures { OnOk result (out.new ≡ out.old ++ account ∷ []) }
{
    let places = account.into_places(alloc)?;
    out.push(places)?;
    Ok(())
}

fn places_of(alloc: Global, accounts: Items<Account>) -> Result<Items<ManagerPlaces>, NoMemory>
    ensures { IfOk result (λ places. places ≡ accounts) }
{
    let mut out = Items::new(alloc);
    let mut left = accounts.into_vec();
    left.reverse();
    'placing: while let Some(account) = left.pop() {
        put_places(&mut out, alloc, account)?;
    }
    Ok(out)
}

fn story_posted<'a>(
    alloc: Global,
    scenario: &Scenario,
    histories: &'a [History],
    spots: &[Spot],
) -> Result<Books<'a>, NoMemory>
    requires { AreOpened histories.now }
    ensures { IfOk result (λ b. b ≡ ledger_spots histories.now spots.now (opening_ledger scenario.now histories.now)) }
{
    let mut books = begun(alloc, scenario, histories)?;
    post_spots(&mut books, alloc, histories, spots)?;
    Ok(books)
}

/// The ledger of a story: where each message is after all its entries, by commits and name resolution alone.
///
/// # Errors
///
/// No memory.
#[tactic(auto, using(crate::proofs::SpotLaws::whole))]
pub fn ledger_of(
    alloc: Global,
    scenario: &Scenario,
    histories: &[History],
    spots: &[Spot],
) -> Result<Items<ManagerPlaces>, NoMemory>
    requires { AreOpened histories.now }
    ensures { IfOk result (λ places. places ≡ (ledger (opening_ledger scenario.now histories.now) (lines_of histories.now spots.now)).places) }
{
    let books = story_posted(alloc, scenario, histories, spots)?;
    places_of(alloc, books.into_accounts())
}
