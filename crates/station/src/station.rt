// A station: a card on its reader, the profile that the card is judged by, and what its jobs are numbered by.
ghost use Rattle.std.specs.Prelude.{◌≡◌};

use card::Card;
use layout::Profile;

// What a call leaves of it is said in each call's contract (`with_card`): no ghost field can tie what was to what is.
// `number` is the station's own, and `last_job` the number of the last job that it handed out.
#[derive(Drop)]
pub struct Station<C> {
    pub profile: Profile,
    pub card: C,
    pub number: u32,
    pub last_job: u32,
}

impl<C: Card> Station<C> {
    // A station for a card. Nothing is refused, and the card is not asked.
    pub fn new(profile: Profile, card: C, number: u32, last_job: u32) -> Station<C>
        ensures { result ≡ record { profile = profile; card = card; number = number; last_job = last_job } }
    {
        Station {
            profile,
            card,
            number,
            last_job,
        }
    }
}
