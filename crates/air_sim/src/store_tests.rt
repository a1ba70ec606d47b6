// The sites of a store over real files, each test in a folder of its own.
ghost use Rattle.std.specs.Prelude.{[], IfOk, IsTrue};
ghost use Rattle.plan_reader.specs.CardPlaces.{have_own_numbers};

use crate::tests::{UPDATES, UPDATES_ANSWER, polled, send};
use crate::unsynced_files::UnsyncedFiles;
use crate::{SimSite, file_sites};
use disk_model::{DiskCalls, DiskFault, FileDisk};
use plan_reader::{Plan, read_plan};
use site_model::{Site, SiteFault};
use std::alloc::Global;
use std::fs;
use std::rt::Files;
use std::test::Fail;

/// Card 8901 stands on lane 1 of two, and card 8902 on lane 0.
const PLAN: &str = "\
campaign = 1
[[card]]
number = 8901
buffer = 1024
rfm = \"B00010\"
ram = \"000000\"
[[card]]
number = 8902
[[keyset]]
card = 8901
kvn = 1
kic = \"000102030405060708090a0b0c0d0e0f\"
kid = \"2b7e151628aed2a6abf7158809cf4f3c\"
mode = \"higher\"
cipher = true
";

const LANES: u16 = 2;

type FileSite = SimSite<FileDisk<HostRuntime>>;

fn plan_of(alloc: Global, text: &str) -> Result<Plan, Fail>
    ensures { IfOk result (λ plan. IsTrue (have_own_numbers plan.cards)) }
{
    match read_plan(alloc, text.as_bytes()) {
        Ok(plan) => Ok(plan),
        Err(_) => Err("no plan")?,
    }
}

/// An empty folder.
fn make_folder(rt: &HostRuntime, folder: &str) -> Result<(), Fail> {
    let _ = fs::remove_dir_all(rt, folder);
    fs::create_dir(rt, folder)?;
    Ok(())
}

/// What the sites of the store in this folder are.
fn open(rt: &HostRuntime, folder: &str) -> Result<Result<Vec<FileSite>, SiteFault>, Fail> {
    let alloc = rt.alloc();
    let plan = plan_of(alloc, PLAN)?;
    Ok(file_sites(rt, alloc, &plan, folder, LANES))
}

/// The site of lane 1, which has card 8901.
fn open_last(rt: &HostRuntime, folder: &str) -> Result<FileSite, Fail> {
    let mut sites = match open(rt, folder)? {
        Ok(sites) => sites,
        Err(_) => return Err("the store isn't opened")?,
    };
    if sites.len() != 2 {
        return Err("a site for each lane")?;
    }
    match sites.pop() {
        Some(site) => Ok(site),
        None => Err("no site")?,
    }
}

/// The numbers of a site's cards, each with the count of its log's lines.
fn cards<D: DiskCalls>(alloc: Global, site: &SimSite<D>) -> Result<String, Fail> {
    let mut text = String::new(alloc);
    for card in site.cards() {
        text.push_str(format!(in alloc;
            "{}: {};",
            card.facts().card.0,
            card.log().len()
        )?.as_str())?;
    }
    Ok(text)
}

/// Writes three octets to the journal's disk, through the bound of a site that threads share.
fn write_journal<S: Site>(site: &mut S) -> Result<(), DiskFault> {
    site.write_at(0, &[7, 8, 9])?;
    site.sync()
}

/// The length of the journal's disk.
fn journal_length<S: Site>(site: &mut S) -> Result<u64, DiskFault> {
    site.len()
}

/// Makes a store in this folder: its last journal has three octets, and card 8901 one line.
fn make_store(rt: &HostRuntime, folder: &str) -> Result<(), Fail> {
    let alloc = rt.alloc();
    make_folder(rt, folder)?;
    let mut site = open_last(rt, folder)?;
    if write_journal(&mut site).is_err() {
        return Err("the journal isn't written")?;
    }
    send(alloc, &mut site, 8901, UPDATES)?;
    if polled(alloc, &mut site, 1)?.as_str() != UPDATES_ANSWER {
        return Err("the card doesn't answer")?;
    }
    Ok(())
}

#[test]
fn store_is_made_closed_and_opened_again(rt: HostRuntime) -> Result<(), Fail> {
    let alloc = rt.alloc();
    make_store(&rt, "store-again")?;
    let mut site = open_last(&rt, "store-again")?;
    assert_eq!(rt; journal_length(&mut site), Ok(3));
    assert_eq!(rt; cards(alloc, &site)?.as_str(), "8901: 1;");
    assert_eq!(rt; site.sent_count(), 0);
    fs::remove_dir_all(&rt, "store-again")?;
    Ok(())
}

#[test]
fn card_whose_file_is_missing_is_issued_anew(rt: HostRuntime) -> Result<(), Fail> {
    let alloc = rt.alloc();
    make_store(&rt, "store-missing")?;
    fs::remove_file(&rt, "store-missing/card-8901.sim")?;
    let mut site = open_last(&rt, "store-missing")?;
    assert_eq!(rt; journal_length(&mut site), Ok(3));
    assert_eq!(rt; cards(alloc, &site)?.as_str(), "8901: 0;");
    assert!(rt; fs::metadata(&rt, "store-missing/card-8901.sim")?.len() > 0);
    fs::remove_dir_all(&rt, "store-missing")?;
    Ok(())
}

#[test]
fn damaged_store_of_a_card_is_refused(rt: HostRuntime) -> Result<(), Fail> {
    make_store(&rt, "store-damaged")?;
    let file = "store-damaged/card-8901.sim";
    let mut octets = fs::read(&rt, file)?;
    // Behind a mark, a head, a gate and two lengths stands the kind of the first part.
    match octets.get_mut(19) {
        Some(kind) => *kind = 9,
        None => return Err("the store has no part")?,
    }
    fs::write(&rt, file, octets.as_slice())?;
    assert!(rt; matches!(open(&rt, "store-damaged")?, Err(SiteFault::Failed)));
    fs::write(&rt, file, b"no log at all".as_slice())?;
    assert!(rt; matches!(open(&rt, "store-damaged")?, Err(SiteFault::Failed)));
    fs::remove_dir_all(&rt, "store-damaged")?;
    Ok(())
}

#[test]
fn folder_that_is_not_there(rt: HostRuntime) -> Result<(), Fail> {
    let alloc = rt.alloc();
    let _ = fs::remove_dir_all(&rt, "store-nowhere");
    assert!(rt; matches!(open(&rt, "store-nowhere")?, Err(SiteFault::Failed)));
    let plan = Plan::empty(alloc);
    match file_sites(&rt, alloc, &plan, "store-nowhere", 1) {
        Ok(sites) => {
            for mut site in sites {
                assert_eq!(rt; journal_length(&mut site), Ok(0));
                assert_eq!(rt; write_journal(&mut site), Err(DiskFault::Failed));
            }
        }
        Err(_) => return Err("sites without cards need no file")?,
    }
    Ok(())
}

/// A plan of so many cards.
fn plan_with(alloc: Global, count: u32) -> Result<Plan, Fail>
    ensures { IfOk result (λ plan. IsTrue (have_own_numbers plan.cards)) }
{
    let mut text = String::from_str(alloc, "campaign = 1\n")?;
    for number in 0..count {
        text.push_str(format!(in alloc; "[[card]]\nnumber = {number}\n")?.as_str())?;
    }
    plan_of(alloc, text.as_str())
}

/// How many files this process has open.
fn open_files(rt: &HostRuntime) -> Result<usize, Fail> {
    let mut count: usize = 0;
    for entry in fs::read_dir(rt, "/proc/self/fd")? {
        entry?;
        count = count.saturating_add(1);
    }
    Ok(count)
}

#[test]
fn many_cards_need_few_open_files(rt: HostRuntime) -> Result<(), Fail> {
    let alloc = rt.alloc();
    make_folder(&rt, "store-many")?;
    let plan = plan_with(alloc, 5_000)?;
    let files = UnsyncedFiles(rt.clone()?);
    let sites = match file_sites(&files, alloc, &plan, "store-many", 1) {
        Ok(sites) => sites,
        Err(_) => return Err("the store isn't opened")?,
    };
    match sites.first() {
        Some(site) => assert_eq!(rt; site.cards().len(), 5_000),
        None => return Err("no site")?,
    }
    assert!(rt; open_files(&rt)? < 50);
    fs::remove_dir_all(&rt, "store-many")?;
    Ok(())
}
