// Reads the lines of a sheet.
ghost use Rattle.std.specs.Prelude.{◌≡◌, IsTrue};
ghost use Rattle.packages.specs.declared.travel_packages.Package.TheVariants as trips;
ghost use Rattle.packages.specs.Packages.{are_apart, is_night, is_package};
ghost use Rattle.text_forms.specs.Rows as rows;
ghost use Rattle.log_reader.specs.SheetForms as forms;

use log_text::none_line;
use packages::Package;
use tac_base::Agent;
use tac_base::limits::BEST_TOTAL;
use text_forms::{Column, Digits, read_row};

/// The column of an amount in dollars: a sign and at most 18 digits.
fn amount_column() -> Column
    ensures { result ≡ forms.amount_column }
{
    Column {
        signed: true,
        digits: Digits::Eighteen,
        low: -999_999_999_999_999_999,
        high: 999_999_999_999_999_999,
    }
}

/// Reads the best total, the cash, the tickets short and the score from the line of an agent.
#[tactic(auto, unfolding(crate::specs::SheetForms::read_score))]
pub(crate) fn score_of(agent: Agent, line: &[u8]) -> Option<(u32, i64, u32, i64)>
    ensures { result ≡ forms.read_score agent line.now }
{
    let columns = [
        Column::within(0, 7),
        Column::within(0, BEST_TOTAL),
        amount_column(),
        Column::within(0, u32::MAX),
        amount_column(),
    ];
    match read_row(line, b"score", &columns) {
        Ok(numbers) => {
            if numbers[0].unsigned_abs() == u64::from(agent.get()) {
                Some((numbers[1] as u32, numbers[2], numbers[3] as u32, numbers[4]))
            } else {
                None
            }
        }
        Err(_) => None,
    }
}

/// Whether no night occurs twice.
fn are_apart(nights: &[u8; 3]) -> bool
    ensures { result ≡ are_apart nights.now }
{
    let [first, second, third] = *nights;
    (first == 0 || !(second == first || third == first)) && (second == 0 || third != second)
}

/// Whether a night is none, or a night of the stay.
fn is_night(arrive: u8, depart: u8, night: u8) -> bool
    ensures { result ≡ is_night arrive depart night }
{
    night == 0 || (arrive <= night && night < depart)
}

/// Whether a trip is one of the packages.
fn is_trip(hotel: u8, arrive: u8, depart: u8, nights: &[u8; 3]) -> bool
    ensures { result ≡ is_package (trips.Trip hotel arrive depart nights.now) }
{
    hotel < 2
        && 1 <= arrive
        && arrive < depart
        && depart <= 5
        && nights.iter().all(|night| is_night(arrive, depart, *night))
        && are_apart(nights)
}

/// Whether a package is one of the 393.
fn is_package(chosen: &Package) -> bool
    ensures { result ≡ is_package chosen.now }
{
    match chosen {
        Package::None => true,
        Package::Trip {
            hotel,
            arrive,
            depart,
            nights,
        } => is_trip(*hotel, *arrive, *depart, nights),
    }
}

/// Returns a package if it is one of the 393.
fn checked(chosen: Package) -> Option<Package>
    ensures { result ≡ forms.checked chosen }
{
    if is_package(&chosen) {
        Some(chosen)
    } else {
        None
    }
}

/// Makes a trip from the numbers of a line.
fn trip_at(numbers: &[i64; 8]) -> Package
    requires { IsTrue (rows.all_in forms.trip_columns numbers.now) }
    ensures { result ≡ forms.trip_in numbers.now }
{
    Package::Trip {
        hotel: numbers[2] as u8,
        arrive: numbers[3] as u8,
        depart: numbers[4] as u8,
        nights: [numbers[5] as u8, numbers[6] as u8, numbers[7] as u8],
    }
}

/// Reads the trip from the line of an agent's client.
fn trip_of(agent: Agent, client: u8, line: &[u8]) -> Option<Package>
    ensures { result ≡ forms.read_trip agent client line.now }
{
    match read_row(line, b"package", &[Column::within(0, 255); 8]) {
        Ok(numbers) => {
            if numbers[0].unsigned_abs() == u64::from(agent.get())
                && numbers[1].unsigned_abs() == u64::from(client)
            {
                checked(trip_at(&numbers))
            } else {
                None
            }
        }
        Err(_) => None,
    }
}

/// Reads the package from the line of an agent's client, 0..7.
#[tactic(auto, unfolding(crate::specs::SheetForms::package_of))]
pub(crate) fn package_of(agent: Agent, client: u8, line: &[u8]) -> Option<Package>
    ensures { result ≡ forms.package_of agent client line.now }
{
    if line == none_line(agent.get(), client).as_slice() {
        Some(Package::None)
    } else {
        trip_of(agent, client, line)
    }
}

/// Reads the number of lines of an agent's certificate, from the line before them.
#[tactic(auto, unfolding(crate::specs::SheetForms::read_count))]
pub(crate) fn count_of(agent: Agent, line: &[u8]) -> Option<u32>
    ensures { result ≡ forms.read_count agent line.now }
{
    let columns = [Column::within(0, 7), Column::within(0, u32::MAX)];
    match read_row(line, b"cert", &columns) {
        Ok(numbers) => {
            if numbers[0].unsigned_abs() == u64::from(agent.get()) {
                Some(numbers[1] as u32)
            } else {
                None
            }
        }
        Err(_) => None,
    }
}
