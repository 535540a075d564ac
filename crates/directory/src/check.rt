// The directory check over any card.
ghost use Rattle.std.specs.Prelude.{◌≡◌, IfOk, Ok};
ghost use Rattle.directory.specs.Checks.{nscp_look, services_look, check_look};
ghost use Rattle.directory.specs.Laws.{ReadsDecide, OneAlteredByte};
ghost use Rattle.directory.specs.Looks.{Taken};
ghost use Rattle.directory.specs.Nscp.{nscp_judged};

use crate::accepted::{Applications, Directory, Nscp, Services};
use crate::judge::{read_mad, read_sealed};
use card::Card;
use layout::{Profile, Reason, Refusal, Run};

// Reads the directories of a card, each block once and in order, and judges each part before the next is read.
#[tactic(auto, using(crate::proofs::Locality::reads_decide, crate::proofs::OneAltered::one_altered), unfolding(crate::specs::Checks::check_look))]
pub fn check_card<C: Card>(card: &mut C, profile: Profile) -> Result<Directory, Refusal>
    ensures look { Taken C.Card (check_look profile) card.old card.new result }
    ensures decide { ReadsDecide profile }
    ensures altered { OneAlteredByte profile }
{
    let bytes = read_mad(card, profile)?;
    let applications = Applications { profile, bytes };
    let nscp = read_nscp(card, &applications)?;
    read_services(card, applications, nscp)
}

// The NSCP directory: its sector, its seal, its header and items.
#[tactic(auto, using(crate::proofs::DirectoryPlaces::nscp_on_card))]
fn read_nscp<C: Card>(card: &mut C, applications: &Applications) -> Result<Nscp, Refusal>
    ensures look { Taken C.Card (nscp_look applications.now.profile applications.now.bytes) card.old card.new result }
    ensures items { IfOk result (λ n. nscp_judged n.bytes ≡ Ok tt) }
{
    let sector = applications.nscp_sector()?;
    let run = Run {
        start: sector.first().unwrap(),
        length: 3,
    };
    let bytes = read_sealed(card, run, Reason::NscpChecksum)?;
    let nscp = Nscp { sector, bytes };
    nscp.judge()?;
    Ok(nscp)
}

// The services directory: its place, its seal, its header and slots.
#[tactic(auto, using(crate::proofs::DirectoryPlaces::services_on_card))]
fn read_services<C: Card>(
    card: &mut C,
    applications: Applications,
    nscp: Nscp,
) -> Result<Directory, Refusal>
    requires items { nscp_judged nscp.bytes ≡ Ok tt }
    ensures { Taken C.Card (services_look applications.profile applications.bytes nscp) card.old card.new result }
{
    let block = applications.services_block(&nscp)?;
    let run = Run {
        start: block,
        length: 3,
    };
    let bytes = read_sealed(card, run, Reason::ServicesChecksum)?;
    let directory = Directory {
        applications,
        nscp,
        services: Services { block, bytes },
    };
    directory.judge_slots()?;
    Ok(directory)
}
