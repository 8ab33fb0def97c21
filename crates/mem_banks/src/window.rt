//! The bytes of four banks, lent to a user for the time of one call.

ghost use Rattle.std.specs.Prelude.{◌≡◌, ◌<◌, ℕ, List, IfSome, IfNone, length, Some, None, true, false};
ghost use Rattle.mem_banks.specs.Kept.{AreKept};
ghost use Rattle.mem_banks.specs.Windows.{AreOpened, AreOpenedBeside, AreAllOpened, AreUsual, IsBankOf, HasNoBank, IsPlaceOf, HasNoPlace, AreTwo, IsOne, AreRising, IsBehind};

use crate::bank::{Bank, find, page};
use crate::{Memory, RAM};
use std::alloc::Global;
use std::mem::swap;

/// A user of a window: it works with the bytes of four regions while the window is open. These are
/// code, which it does not change, data in the RAM, and two more areas of the RAM.
pub trait WindowUser {
    /// The user before, the bytes of the four regions before, the user after, and the bytes of the
    /// three regions in the RAM after.
    ghost did: { Self → List ℕ → List ℕ → List ℕ → List ℕ → Self → List ℕ → List ℕ → List ℕ → Type 0 };

    /// Does the user's work. No region gets longer or shorter.
    fn work(
        &mut self,
        flash: &mut Vec<u8>,
        ram: &mut Vec<u8>,
        area: &mut Vec<u8>,
        second: &mut Vec<u8>,
    )
        ensures did { did self.old flash.old.items ram.old.items area.old.items second.old.items
            self.new ram.new.items area.new.items second.new.items }
        ensures flash { flash.new.items ≡ flash.old.items }
        ensures length { length ram.new.items ≡ length ram.old.items }
        ensures area { length area.new.items ≡ length area.old.items }
        ensures second { length second.new.items ≡ length second.old.items };
}

/// The bank that has the bytes of a region and no others. The table usually names it.
#[inline(always)]
fn bank_of(banks: &[Bank], table: &[u16], region: (u32, u32)) -> Option<usize>
    requires { AreKept table.now banks.now }
    ensures found { IfSome result (λ k. IsBankOf banks.now k region) }
    ensures none { IfNone result (HasNoBank banks.now region) }
{
    let k = table[page(region.0)] as usize;
    let bank = &banks[k];
    if bank.base == region.0 && bank.bytes.len() == region.1 as usize {
        return Some(k);
    }
    bank_beyond(banks, table, region)
}

/// The same if the table names another bank.
#[cold]
#[inline(never)]
fn bank_beyond(banks: &[Bank], table: &[u16], region: (u32, u32)) -> Option<usize>
    requires { AreKept table.now banks.now }
    ensures found { IfSome result (λ k. IsBankOf banks.now k region) }
    ensures none { IfNone result (HasNoBank banks.now region) }
{
    let place = find(banks, table, region.0)?;
    if place.at == 0 && banks[place.bank].bytes.len() == region.1 as usize {
        return Some(place.bank);
    }
    None
}

/// The bank of a region of the RAM. `None` if the region has no bank of its own; `Some(None)` if it
/// is no region.
#[inline(always)]
fn ram_bank(banks: &[Bank], table: &[u16], region: (u32, u32)) -> Option<Option<usize>>
    requires { AreKept table.now banks.now }
    ensures found { IfSome result (λ k. IsPlaceOf banks.now k region) }
    ensures none { IfNone result (HasNoPlace banks.now region) }
{
    if region == (RAM, 0) {
        return Some(None);
    }
    if region.0 < RAM {
        return None;
    }
    let k = bank_of(banks, table, region)?;
    Some(Some(k))
}

/// Whether the two are different banks, or at least one is none.
#[inline(always)]
fn are_two(first: Option<usize>, second: Option<usize>) -> bool
    ensures two { result ≡ true → AreTwo first second }
    ensures one { result ≡ false → AreTwo first second → ⊥ }
{
    match (first, second) {
        (Some(i), Some(j)) => i != j,
        _ => true,
    }
}

/// Opens the bytes of two banks, of which the first is that of the code, and those of two areas.
#[inline(always)]
fn open_in_order<B: WindowUser>(
    banks: &mut [Bank],
    flash: usize,
    ram: usize,
    area: &mut Vec<u8>,
    second: &mut Vec<u8>,
    user: &mut B,
)
    requires ram { ram < length banks.old }
    requires order { flash < ram }
    ensures { AreOpened B.did banks.old flash (Some ram) area.old.items second.old.items user.old
        user.new banks.new area.new.items second.new.items }
{
    let (front, back) = banks.split_at_mut(ram);
    user.work(&mut front[flash].bytes, &mut back[0].bytes, area, second);
}

/// Opens the bytes of two banks and those of two areas.
fn open_two<B: WindowUser>(
    banks: &mut [Bank],
    flash: usize,
    ram: usize,
    area: &mut Vec<u8>,
    second: &mut Vec<u8>,
    user: &mut B,
)
    requires flash { flash < length banks.old }
    requires ram { ram < length banks.old }
    requires apart { flash ≡ ram → ⊥ }
    ensures { AreOpened B.did banks.old flash (Some ram) area.old.items second.old.items user.old
        user.new banks.new area.new.items second.new.items }
{
    if flash < ram {
        open_in_order(banks, flash, ram, area, second, user);
    } else {
        let (front, back) = banks.split_at_mut(flash);
        user.work(&mut back[0].bytes, &mut front[ram].bytes, area, second);
    }
}

/// Opens the bytes of one bank and those of two areas.
fn open_one<B: WindowUser>(
    banks: &mut [Bank],
    flash: usize,
    area: &mut Vec<u8>,
    second: &mut Vec<u8>,
    alloc: Global,
    user: &mut B,
)
    requires { flash < length banks.old }
    ensures { AreOpened B.did banks.old flash None area.old.items second.old.items user.old user.new
        banks.new area.new.items second.new.items }
{
    let mut none = Vec::new(alloc);
    user.work(&mut banks[flash].bytes, &mut none, area, second);
}

/// Opens the bytes of one or two banks and those of two areas.
#[inline(always)]
fn open_beside<B: WindowUser>(
    banks: &mut [Bank],
    flash: usize,
    ram: Option<usize>,
    area: &mut Vec<u8>,
    second: &mut Vec<u8>,
    alloc: Global,
    user: &mut B,
)
    requires flash { flash < length banks.old }
    requires ram { IsOne banks.old ram }
    requires apart { AreTwo (Some flash) ram }
    ensures { AreOpened B.did banks.old flash ram area.old.items second.old.items user.old user.new
        banks.new area.new.items second.new.items }
{
    match ram {
        Some(k) => open_two(banks, flash, k, area, second, user),
        None => open_one(banks, flash, area, second, alloc, user),
    }
}

/// Opens the bytes of one or two banks, of the bank of an area, and those of a second area. The
/// bytes of the first area are taken out of its bank for this time. Most tasks have no area, so
/// this is a separate function.
#[inline(never)]
fn open_area<B: WindowUser>(
    banks: &mut [Bank],
    flash: usize,
    ram: Option<usize>,
    area: usize,
    second: &mut Vec<u8>,
    alloc: Global,
    user: &mut B,
)
    requires flash { flash < length banks.old }
    requires ram { IsOne banks.old ram }
    requires area { area < length banks.old }
    requires apart { AreTwo (Some flash) ram }
    requires beside { AreTwo (Some flash) (Some area) }
    requires two { AreTwo ram (Some area) }
    ensures { AreOpenedBeside B.did banks.old flash ram (Some area) second.old.items user.old
        user.new banks.new second.new.items }
{
    let mut bytes = Vec::new(alloc);
    swap(&mut banks[area].bytes, &mut bytes);
    open_beside(banks, flash, ram, &mut bytes, second, alloc, user);
    swap(&mut banks[area].bytes, &mut bytes);
}

/// Opens the bytes of one or two banks, of the bank of an area if there is one, and those of a
/// second area.
#[inline(always)]
fn open_areas<B: WindowUser>(
    banks: &mut [Bank],
    flash: usize,
    ram: Option<usize>,
    area: Option<usize>,
    second: &mut Vec<u8>,
    alloc: Global,
    user: &mut B,
)
    requires flash { flash < length banks.old }
    requires ram { IsOne banks.old ram }
    requires area { IsOne banks.old area }
    requires apart { AreTwo (Some flash) ram }
    requires beside { AreTwo (Some flash) area }
    requires two { AreTwo ram area }
    ensures { AreOpenedBeside B.did banks.old flash ram area second.old.items user.old user.new
        banks.new second.new.items }
{
    match area {
        Some(k) => open_area(banks, flash, ram, k, second, alloc, user),
        None => {
            let mut none = Vec::new(alloc);
            open_beside(banks, flash, ram, &mut none, second, alloc, user);
        }
    }
}

/// Opens the bytes of up to three banks and of the bank of a second area. The bytes of the second
/// area are taken out of its bank for this time. Few tasks have two areas, so this is a separate
/// function.
#[inline(never)]
fn open_second<B: WindowUser>(
    banks: &mut [Bank],
    flash: usize,
    ram: Option<usize>,
    area: Option<usize>,
    second: usize,
    alloc: Global,
    user: &mut B,
)
    requires flash { flash < length banks.old }
    requires ram { IsOne banks.old ram }
    requires area { IsOne banks.old area }
    requires second { second < length banks.old }
    requires apart { AreTwo (Some flash) ram }
    requires beside { AreTwo (Some flash) area }
    requires two { AreTwo ram area }
    requires second_beside { AreTwo (Some flash) (Some second) }
    requires second_two { AreTwo ram (Some second) }
    requires areas { AreTwo area (Some second) }
    ensures { AreAllOpened B.did banks.old flash ram area (Some second) user.old user.new
        banks.new }
{
    let mut bytes = Vec::new(alloc);
    swap(&mut banks[second].bytes, &mut bytes);
    open_areas(banks, flash, ram, area, &mut bytes, alloc, user);
    swap(&mut banks[second].bytes, &mut bytes);
}

/// Opens the bytes of one or two banks, and of the banks of up to two areas.
#[inline(always)]
fn open_all<B: WindowUser>(
    banks: &mut [Bank],
    flash: usize,
    ram: Option<usize>,
    area: Option<usize>,
    second: Option<usize>,
    alloc: Global,
    user: &mut B,
)
    requires flash { flash < length banks.old }
    requires ram { IsOne banks.old ram }
    requires area { IsOne banks.old area }
    requires second { IsOne banks.old second }
    requires apart { AreTwo (Some flash) ram }
    requires beside { AreTwo (Some flash) area }
    requires two { AreTwo ram area }
    requires second_beside { AreTwo (Some flash) second }
    requires second_two { AreTwo ram second }
    requires areas { AreTwo area second }
    ensures { AreAllOpened B.did banks.old flash ram area second user.old user.new banks.new }
{
    match second {
        Some(k) => open_second(banks, flash, ram, area, k, alloc, user),
        None => {
            let mut none = Vec::new(alloc);
            open_areas(banks, flash, ram, area, &mut none, alloc, user);
        }
    }
}

/// Whether a bank has the bytes of a region and no others.
#[inline(always)]
fn is_bank_of(bank: &Bank, region: (u32, u32)) -> bool
    ensures { result ≡ true → (bank.now.base ≡ region.0)
        × (length bank.now.bytes.items ≡ region.1) }
{
    bank.base == region.0 && bank.bytes.len() == region.1 as usize
}

/// The banks of a region of code and of a region of the RAM in the case that most tasks are in:
/// each is the bank that the table names, the bank of the code comes first, and there is no area.
#[inline(always)]
fn usual_banks(
    banks: &[Bank],
    table: &[u16],
    flash: (u32, u32),
    ram: (u32, u32),
    area: (u32, u32),
    second: (u32, u32),
) -> Option<(usize, usize)>
    requires { AreKept table.now banks.now }
    ensures { IfSome result (λ p. AreUsual banks.now p.0 p.1 flash ram area second) }
{
    if area != (RAM, 0) || second != (RAM, 0) || ram.0 < RAM || ram.1 == 0 {
        return None;
    }
    let code = table[page(flash.0)] as usize;
    let data = table[page(ram.0)] as usize;
    if code < data && is_bank_of(&banks[code], flash) && is_bank_of(&banks[data], ram) {
        return Some((code, data));
    }
    None
}

/// Opens the bytes of two banks, of which the first is that of the code.
#[inline(always)]
fn open_usual<B: WindowUser>(
    banks: &mut [Bank],
    flash: usize,
    ram: usize,
    alloc: Global,
    user: &mut B,
)
    requires ram { ram < length banks.old }
    requires order { flash < ram }
    ensures { AreAllOpened B.did banks.old flash (Some ram) None None user.old user.new banks.new }
{
    let mut none = Vec::new(alloc);
    let mut no_second = Vec::new(alloc);
    open_in_order(banks, flash, ram, &mut none, &mut no_second, user);
}

/// The bank of a region of the RAM, if the table names it and it comes after the bank `before`.
#[inline(always)]
fn bank_behind(banks: &[Bank], table: &[u16], region: (u32, u32), before: usize) -> Option<usize>
    requires { AreKept table.now banks.now }
    ensures { IfSome result (λ k. (before < k) × IsPlaceOf banks.now (Some k) region) }
{
    if region.0 < RAM || region.1 == 0 {
        return None;
    }
    let k = table[page(region.0)] as usize;
    if before < k && is_bank_of(&banks[k], region) {
        return Some(k);
    }
    None
}

/// The banks of a region of code, of two regions of the RAM and of a third one, if there is one.
/// The table names each of these banks, and they are in this order, as those of most tasks with
/// areas.
#[inline(always)]
fn rising_banks(
    banks: &[Bank],
    table: &[u16],
    flash: (u32, u32),
    ram: (u32, u32),
    area: (u32, u32),
    second: (u32, u32),
) -> Option<(usize, usize, usize, Option<usize>)>
    requires { AreKept table.now banks.now }
    ensures { IfSome result (λ p. AreRising banks.now p.0 p.1 p.2 p.3 flash ram area second) }
{
    let code = table[page(flash.0)] as usize;
    if !is_bank_of(&banks[code], flash) {
        return None;
    }
    let data = bank_behind(banks, table, ram, code)?;
    let more = bank_behind(banks, table, area, data)?;
    if second == (RAM, 0) {
        return Some((code, data, more, None));
    }
    let last = bank_behind(banks, table, second, more)?;
    Some((code, data, more, Some(last)))
}

/// Opens the bytes of three banks that lie in this order, beside those of a second area.
#[inline(always)]
fn open_three<B: WindowUser>(
    banks: &mut [Bank],
    flash: usize,
    ram: usize,
    area: usize,
    second: &mut Vec<u8>,
    user: &mut B,
)
    requires there { area < length banks.old }
    requires area { ram < area }
    requires ram { flash < ram }
    ensures { AreOpenedBeside B.did banks.old flash (Some ram) (Some area) second.old.items user.old
        user.new banks.new second.new.items }
{
    let (front, back) = banks.split_at_mut(area);
    open_in_order(front, flash, ram, &mut back[0].bytes, second, user);
}

/// Opens the bytes of four banks that lie in this order.
#[inline(always)]
fn open_four<B: WindowUser>(
    banks: &mut [Bank],
    flash: usize,
    ram: usize,
    area: usize,
    second: usize,
    user: &mut B,
)
    requires there { second < length banks.old }
    requires second { area < second }
    requires area { ram < area }
    requires ram { flash < ram }
    ensures { AreAllOpened B.did banks.old flash (Some ram) (Some area) (Some second) user.old
        user.new banks.new }
{
    let (front, back) = banks.split_at_mut(second);
    open_three(front, flash, ram, area, &mut back[0].bytes, user);
}

/// Opens the bytes of three banks that lie in this order, and no second area.
#[inline(always)]
fn open_three_alone<B: WindowUser>(
    banks: &mut [Bank],
    flash: usize,
    ram: usize,
    area: usize,
    alloc: Global,
    user: &mut B,
)
    requires there { area < length banks.old }
    requires area { ram < area }
    requires ram { flash < ram }
    ensures { AreAllOpened B.did banks.old flash (Some ram) (Some area) None user.old user.new
        banks.new }
{
    let mut none = Vec::new(alloc);
    open_three(banks, flash, ram, area, &mut none, user);
}

/// Opens the bytes of three or four banks that lie in this order.
#[inline(always)]
fn open_rising<B: WindowUser>(
    banks: &mut [Bank],
    flash: usize,
    ram: usize,
    area: usize,
    second: Option<usize>,
    alloc: Global,
    user: &mut B,
)
    requires area_there { area < length banks.old }
    requires there { IsOne banks.old second }
    requires second { IsBehind area second }
    requires area { ram < area }
    requires ram { flash < ram }
    ensures { AreAllOpened B.did banks.old flash (Some ram) (Some area) second user.old user.new
        banks.new }
{
    match second {
        Some(k) => open_four(banks, flash, ram, area, k, user),
        None => open_three_alone(banks, flash, ram, area, alloc, user),
    }
}

impl Memory {
    ghost use Rattle.mem_banks.specs.Windows.{IsOpened, AreGiven};

    /// The same as `open_window`, for banks in any order and with areas.
    #[inline(never)]
    fn open_any<B: WindowUser>(
        &mut self,
        flash: (u32, u32),
        ram: (u32, u32),
        area: (u32, u32),
        second: (u32, u32),
        user: &mut B,
    ) -> bool
        ensures opened { result ≡ true →
            IsOpened B.did self.old.bytes flash ram area second user.old user.new self.new.bytes }
        ensures given { AreGiven self.old.regions flash ram area second → result ≡ true }
        ensures regions { self.new.regions ≡ self.old.regions }
        ensures kept { result ≡ false → self.new ≡ self.old }
        ensures left { result ≡ false → user.new ≡ user.old }
    {
        let Some(code) = bank_of(&self.banks, &self.table, flash) else {
            return false;
        };
        let Some(data) = ram_bank(&self.banks, &self.table, ram) else {
            return false;
        };
        let Some(more) = ram_bank(&self.banks, &self.table, area) else {
            return false;
        };
        let Some(last) = ram_bank(&self.banks, &self.table, second) else {
            return false;
        };
        if !are_two(Some(code), data) || !are_two(Some(code), more) || !are_two(data, more) {
            return false;
        }
        if !are_two(Some(code), last) || !are_two(data, last) || !are_two(more, last) {
            return false;
        }
        open_all(&mut self.banks, code, data, more, last, self.alloc, user);
        true
    }

    /// As `open_window`, for a task with areas. Most tasks have none, so this is a function of its
    /// own.
    #[inline(never)]
    fn open_with_areas<B: WindowUser>(
        &mut self,
        flash: (u32, u32),
        ram: (u32, u32),
        area: (u32, u32),
        second: (u32, u32),
        user: &mut B,
    ) -> bool
        ensures opened { result ≡ true →
            IsOpened B.did self.old.bytes flash ram area second user.old user.new self.new.bytes }
        ensures given { AreGiven self.old.regions flash ram area second → result ≡ true }
        ensures regions { self.new.regions ≡ self.old.regions }
        ensures kept { result ≡ false → self.new ≡ self.old }
        ensures left { result ≡ false → user.new ≡ user.old }
    {
        if let Some((code, data, more, last)) = rising_banks(
            &self.banks,
            &self.table,
            flash,
            ram,
            area,
            second,
        ) {
            open_rising(&mut self.banks, code, data, more, last, self.alloc, user);
            return true;
        }
        self.open_any(flash, ram, area, second, user)
    }

    /// Opens the bytes of four regions, given by base and size, and returns true. Each region needs
    /// a bank of its own. All but the first one have to lie in the RAM, or to have no bytes and
    /// begin where the RAM begins. Otherwise nothing changes, and the result is false. Regions that
    /// were given to `open` are opened.
    #[inline(always)]
    pub fn open_window<B: WindowUser>(
        &mut self,
        flash: (u32, u32),
        ram: (u32, u32),
        area: (u32, u32),
        second: (u32, u32),
        user: &mut B,
    ) -> bool
        ensures opened { result ≡ true →
            IsOpened B.did self.old.bytes flash ram area second user.old user.new self.new.bytes }
        ensures given { AreGiven self.old.regions flash ram area second → result ≡ true }
        ensures regions { self.new.regions ≡ self.old.regions }
        ensures kept { result ≡ false → self.new ≡ self.old }
        ensures left { result ≡ false → user.new ≡ user.old }
    {
        if let Some((code, data)) = usual_banks(
            &self.banks,
            &self.table,
            flash,
            ram,
            area,
            second,
        ) {
            open_usual(&mut self.banks, code, data, self.alloc, user);
            return true;
        }
        self.open_with_areas(flash, ram, area, second, user)
    }
}
