//! Lists of values, and the runs that they make.
ghost use Rattle.std.specs.Prelude.{◌≡◌, ◌++◌, ◌∷◌, [], All, IfOk, IfSome, None, OnOk, map};
ghost use Rattle.std.specs.List.{range_with_len};
ghost use Rattle.std.specs.Option.{option_map};
ghost use Rattle.vm_config.specs.Settings.{IsInRange};
ghost use Rattle.vm_config.specs.declared.settings.Setting.TheVariants.{Frames, Swap, Tax, PageRate, Rebalance};
ghost use Rattle.vm_sweep.specs.Combinations.{Allows, combinations, guests, looped_at, machines, own_of, place_in, rebalancing_by, rebalancing_of, seed_count, settings, spread, spread_each, spread_over, variants, with_looped};
ghost use Rattle.vm_variants.specs.Changes.{IsPercent};

use crate::variant::{Looped, Variant};
use std::alloc::{AllocError, Global};
use std::marker::Model;
use vm_config::{Config, Setting};
use vm_lists::ValueList;
use vm_tally::Rebalancing;
use vm_variants::GuestSetting;

/// A list of values for the guest with a name. To a contract it is both as plain lists.
#[derive(Debug, Drop)]
pub struct GuestList {
    pub name: String,
    pub values: ValueList,
}

impl Model for GuestList {
    ghost use Rattle.std.specs.Prelude.{string_bytes};
    ghost use Rattle.vm_sweep.specs.Combinations.{NamedList};

    ghost Value = { NamedList };

    ghost view = { λ l. record { name = string_bytes l.name; values = l.values } };
}

/// Lists of values for the numbers of a configuration that the runs of a sweep change: for five settings of the machine, in the units of
/// `vm_tally`'s `Combination`; for the percentage of its size that each guest has as its minimum; for the minimums, and for the shares,
/// of some guests by their names; and for how many seeds. What has no list keeps the value that the configuration has. To a contract it is
/// these lists; its type keeps those of settings and of percent in their ranges.
#[derive(Debug, Drop)]
pub struct Lists {
    frames: Option<ValueList>,
    swap: Option<ValueList>,
    tax: Option<ValueList>,
    page_rate: Option<ValueList>,
    rebalance: Option<ValueList>,
    min_percent: Option<ValueList>,
    minimums: Vec<GuestList>,
    shares: Vec<GuestList>,
    seeds: Option<u32>,
}

impl Model for Lists {
    ghost use Rattle.vm_sweep.specs.Combinations.{HoldInRange, ValueLists};

    ghost Value = { ValueLists };

    ghost view = { λ l. record {
      frames = l.frames;
      swap = l.swap;
      tax = l.tax;
      page_rate = l.page_rate;
      rebalance = l.rebalance;
      min_percent = l.min_percent;
      minimums = l.minimums.items;
      shares = l.shares.items;
      seeds = l.seeds;
    } };

    ghost invariant = { λ l. HoldInRange (record {
      frames = l.frames;
      swap = l.swap;
      tax = l.tax;
      page_rate = l.page_rate;
      rebalance = l.rebalance;
      min_percent = l.min_percent;
      minimums = l.minimums.items;
      shares = l.shares.items;
      seeds = l.seeds;
    }) };
}

impl GuestList {
    /// The name of the guest.
    pub fn name(&self) -> &str
        ensures { result.now ≡ self.now.name }
    {
        &self.name
    }

    /// The values.
    pub fn values(&self) -> &ValueList
        ensures { result.now ≡ self.now.values }
    {
        &self.values
    }
}

// Puts a variant behind the others once for each value of a list.
fn push_each(
    list: &mut Vec<Variant>,
    variant: &Variant,
    what: Looped,
    values: &ValueList,
) -> Result<(), AllocError>
    requires { All (Allows what) values.now }
    ensures { OnOk result (list.new.items ≡ list.old.items ++ map (λ n. with_looped what n variant.now) values.now) }
{
    for index in 0..values.len() {
        let Some(value) = values.get(index) else {
            unreachable!();
        };
        list.push(variant.with(what, value)?)?;
    }
    Ok(())
}

// Each variant with each value of a list.
fn spread_over(
    alloc: Global,
    before: &[Variant],
    what: Looped,
    values: &ValueList,
) -> Result<Vec<Variant>, AllocError>
    requires { All (Allows what) values.now }
    ensures { IfOk result (λ list. list.items ≡ spread_over what values.now before.now) }
{
    let mut list = Vec::new(alloc);
    for variant in before {
        push_each(&mut list, variant, what, values)?;
    }
    Ok(list)
}

// The same where there is a list.
fn spread(
    alloc: Global,
    before: Vec<Variant>,
    what: Looped,
    values: &Option<ValueList>,
) -> Result<Vec<Variant>, AllocError>
    requires { IfSome values.now (All (Allows what)) }
    ensures { IfOk result (λ list. list.items ≡ spread what values.now before.items) }
{
    match values {
        Some(values) => spread_over(alloc, &before, what, values),
        None => Ok(before),
    }
}

// A number of the guest at a place.
fn looped_at(setting: GuestSetting, place: usize) -> Looped
    ensures { result ≡ looped_at setting place }
{
    match setting {
        GuestSetting::Min => Looped::Minimum(place),
        GuestSetting::Shares => Looped::Shares(place),
    }
}

// The place of the guest with the name of a list.
fn place_in(config: &Config, list: &GuestList) -> usize
    ensures { result ≡ place_in config.now list.now }
{
    config.domains.position(list.name()).unwrap_or(0)
}

// Each variant with each value of the list of a guest.
fn spread_guest(
    alloc: Global,
    before: &[Variant],
    setting: GuestSetting,
    place: usize,
    values: &ValueList,
) -> Result<Vec<Variant>, AllocError>
    ensures { IfOk result (λ list. list.items ≡ spread_over (looped_at setting place) values.now before.now) }
{
    spread_over(alloc, before, looped_at(setting, place), values)
}

// A loop for each list of a guest.
fn spread_each(
    alloc: Global,
    before: Vec<Variant>,
    config: &Config,
    setting: GuestSetting,
    lists: &[GuestList],
) -> Result<Vec<Variant>, AllocError>
    ensures { IfOk result (λ list. list.items ≡ spread_each setting config.now lists.now before.items) }
{
    let mut variants = before;
    for list in lists {
        let place = place_in(config, list);
        let more = spread_guest(alloc, &variants, setting, place, list.values())?;
        variants = more;
    }
    Ok(variants)
}

// Puts a variant behind the others once for each seed.
fn push_seeds(list: &mut Vec<Variant>, variant: &Variant, count: u32) -> Result<(), AllocError>
    ensures { OnOk result (list.new.items ≡ list.old.items ++ map (λ n. with_looped Looped.Seed n variant.now) (range_with_len 0 count)) }
{
    for number in 0..count {
        list.push(variant.with(Looped::Seed, number)?)?;
    }
    Ok(())
}

// Each variant with each of so many seeds.
fn spread_over_seeds(
    alloc: Global,
    before: &[Variant],
    count: u32,
) -> Result<Vec<Variant>, AllocError>
    ensures { IfOk result (λ list. list.items ≡ spread_over Looped.Seed (range_with_len 0 count) before.now) }
{
    let mut list = Vec::new(alloc);
    for variant in before {
        push_seeds(&mut list, variant, count)?;
    }
    Ok(list)
}

// The same where it is said how many.
fn spread_seeds(
    alloc: Global,
    before: Vec<Variant>,
    seeds: Option<u32>,
) -> Result<Vec<Variant>, AllocError>
    ensures { IfOk result (λ list. list.items ≡ spread Looped.Seed (option_map (range_with_len 0) seeds) before.items) }
{
    match seeds {
        Some(count) => spread_over_seeds(alloc, &before, count),
        None => Ok(before),
    }
}

// What a configuration has of its own, alone.
fn own_alone(alloc: Global, config: &Config) -> Result<Vec<Variant>, AllocError>
    ensures { IfOk result (λ list. list.items ≡ own_of config.now ∷ []) }
{
    let mut list = Vec::new(alloc);
    list.push(Variant::own_of(alloc, config))?;
    Ok(list)
}

// Where the values of the rebalancing are from.
fn rebalancing_by(values: &Option<ValueList>) -> Rebalancing
    ensures { result ≡ rebalancing_by values.now }
{
    match values {
        Some(_) => Rebalancing::Swept,
        None => Rebalancing::Own,
    }
}

impl Lists {
    /// Lists for settings of the machine, in their ranges, and none for guests.
    pub fn new(
        alloc: Global,
        frames: Option<ValueList>,
        swap: Option<ValueList>,
        tax: Option<ValueList>,
        page_rate: Option<ValueList>,
        rebalance: Option<ValueList>,
    ) -> Self
        requires frames { IfSome frames (All (IsInRange Frames)) }
        requires swap { IfSome swap (All (IsInRange Swap)) }
        requires tax { IfSome tax (All (IsInRange Tax)) }
        requires page_rate { IfSome page_rate (All (IsInRange PageRate)) }
        requires rebalance { IfSome rebalance (All (IsInRange Rebalance)) }
        ensures { result ≡ record {
          frames = frames;
          swap = swap;
          tax = tax;
          page_rate = page_rate;
          rebalance = rebalance;
          min_percent = None;
          minimums = [];
          shares = [];
          seeds = None;
        } }
    {
        Lists {
            frames,
            swap,
            tax,
            page_rate,
            rebalance,
            min_percent: None,
            minimums: Vec::new(alloc),
            shares: Vec::new(alloc),
            seeds: None,
        }
    }

    /// The same with lists for guests in the place of those that it has: percentages, 1 to 100; minimums, and shares, each for the guest
    /// with a name; and how many seeds.
    pub fn with_guests(
        self,
        min_percent: Option<ValueList>,
        minimums: Vec<GuestList>,
        shares: Vec<GuestList>,
        seeds: Option<u32>,
    ) -> Self
        requires { IfSome min_percent (All IsPercent) }
        ensures { result ≡ record self { min_percent = min_percent; minimums = minimums.items; shares = shares.items; seeds = seeds } }
    {
        let Lists {
            frames,
            swap,
            tax,
            page_rate,
            rebalance,
            min_percent: _percents,
            minimums: _minimums,
            shares: _shares,
            seeds: _seeds,
        } = self;
        Lists {
            frames,
            swap,
            tax,
            page_rate,
            rebalance,
            min_percent,
            minimums,
            shares,
            seeds,
        }
    }

    /// The percentages, if there is a list of them.
    pub(crate) fn min_percent(&self) -> &Option<ValueList>
        ensures { result.now ≡ self.now.min_percent }
    {
        &self.min_percent
    }

    /// The lists of minimums.
    pub fn minimums(&self) -> &[GuestList]
        ensures { result.now ≡ self.now.minimums }
    {
        &self.minimums
    }

    /// The lists of shares.
    pub fn shares(&self) -> &[GuestList]
        ensures { result.now ≡ self.now.shares }
    {
        &self.shares
    }

    /// How many seeds, if it is said.
    pub(crate) fn seeds(&self) -> Option<u32>
        ensures { result ≡ self.now.seeds }
    {
        self.seeds
    }

    // These variants with each value of the settings but the frames.
    fn settings(&self, alloc: Global, list: Vec<Variant>) -> Result<Vec<Variant>, AllocError>
        ensures { IfOk result (λ made. made.items ≡ settings self.now list.items) }
    {
        let list = spread(alloc, list, Looped::Machine(Setting::Swap), &self.swap)?;
        let list = spread(alloc, list, Looped::Machine(Setting::Tax), &self.tax)?;
        let list = spread(
            alloc,
            list,
            Looped::Machine(Setting::PageRate),
            &self.page_rate,
        )?;
        spread(
            alloc,
            list,
            Looped::Machine(Setting::Rebalance),
            &self.rebalance,
        )
    }

    // The same with each value of the frames outside these.
    fn machines(&self, alloc: Global, list: Vec<Variant>) -> Result<Vec<Variant>, AllocError>
        ensures { IfOk result (λ made. made.items ≡ machines self.now list.items) }
    {
        let list = spread(alloc, list, Looped::Machine(Setting::Frames), &self.frames)?;
        self.settings(alloc, list)
    }

    // These with each percentage.
    fn percents(&self, alloc: Global, list: Vec<Variant>) -> Result<Vec<Variant>, AllocError>
        ensures { IfOk result (λ made. made.items ≡ spread Looped.Percent self.now.min_percent list.items) }
    {
        spread(alloc, list, Looped::Percent, &self.min_percent)
    }

    // These with all that lists for guests make of them.
    fn guests(
        &self,
        alloc: Global,
        config: &Config,
        list: Vec<Variant>,
    ) -> Result<Vec<Variant>, AllocError>
        ensures { IfOk result (λ made. made.items ≡ guests self.now config.now list.items) }
    {
        let list = self.percents(alloc, list)?;
        let list = spread_each(alloc, list, config, GuestSetting::Min, self.minimums())?;
        spread_each(alloc, list, config, GuestSetting::Shares, self.shares())
    }

    /// What each run has, in order.
    #[tactic(auto, unfolding(crate::specs::Combinations::variants))]
    pub(crate) fn variants(
        &self,
        alloc: Global,
        config: &Config,
    ) -> Result<Vec<Variant>, AllocError>
        ensures { IfOk result (λ list. list.items ≡ variants self.now config.now) }
    {
        let list = self.machines(alloc, own_alone(alloc, config)?)?;
        let list = self.guests(alloc, config, list)?;
        spread_seeds(alloc, list, self.seeds())
    }

    /// What the runs of one machine with one seed have, in order.
    #[tactic(auto, unfolding(crate::specs::Combinations::combinations))]
    pub(crate) fn combinations(
        &self,
        alloc: Global,
        config: &Config,
    ) -> Result<Vec<Variant>, AllocError>
        ensures { IfOk result (λ list. list.items ≡ combinations self.now config.now) }
    {
        let list = self.settings(alloc, own_alone(alloc, config)?)?;
        self.guests(alloc, config, list)
    }

    /// How many runs there are of each combination on a machine.
    pub(crate) fn seed_count(&self) -> usize
        ensures { result ≡ seed_count self.now.seeds }
    {
        match self.seeds {
            Some(seeds) => seeds as usize,
            None => 1,
        }
    }

    /// Whether there is a list for the rebalancing.
    pub(crate) fn rebalancing(&self) -> Rebalancing
        ensures { result ≡ rebalancing_of self.now }
    {
        rebalancing_by(&self.rebalance)
    }
}
