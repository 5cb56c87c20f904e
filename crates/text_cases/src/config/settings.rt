// Values of settings of a configuration.
use crate::table::{Columns, Outcome};
use std::alloc::{AllocError, Global};
use vm_config::{Config, Setting, read_config};

/// The configuration whose settings are given values.
const TEXT: &str =
    "{\"version\":3,\"frames\":9,\"swap\":8,\"tax\":6,\"page_rate\":10,\"rebalance\":7,\"epochs\":12,\"guests\":[]}";

/// A value for a setting.
#[derive(Drop)]
struct Case<'a> {
    setting: Setting,
    value: u32,
    wanted: &'a str,
}

impl<'a> Case<'a> {
    fn of(line: &'a str) -> Option<Self> {
        let mut columns = Columns::of(line);
        let case = Case {
            setting: setting_of(columns.text()?)?,
            value: u32::try_from(columns.number()?).ok()?,
            wanted: columns.text()?,
        };
        columns.end()?;
        Some(case)
    }
}

/// The setting that a key names.
fn setting_of(key: &str) -> Option<Setting> {
    match key {
        "frames" => Some(Setting::Frames),
        "swap" => Some(Setting::Swap),
        "tax" => Some(Setting::Tax),
        "page_rate" => Some(Setting::PageRate),
        "rebalance" => Some(Setting::Rebalance),
        _ => None,
    }
}

/// Gives a setting a value, and tells whether that is in its range.
fn set(
    alloc: Global,
    config: &mut Config,
    setting: Setting,
    value: u32,
) -> Result<String, AllocError> {
    match config.set(setting, value) {
        Ok(()) => {
            let (least, greatest) = (setting.least(), setting.greatest());
            format!(in alloc; "{least} to {greatest}")
        }
        Err(missed) => format!(in alloc; "{missed}"),
    }
}

/// The value of each setting, behind what was told.
fn with_values(alloc: Global, told: &str, config: &Config) -> Result<String, AllocError> {
    let frames = config.setting(Setting::Frames);
    let swap = config.setting(Setting::Swap);
    let tax = config.setting(Setting::Tax);
    let page_rate = config.setting(Setting::PageRate);
    let rebalance = config.setting(Setting::Rebalance);
    format!(in alloc;
        "{told}: frames {frames}, swap {swap}, tax {tax}, page_rate {page_rate}, rebalance {rebalance}"
    )
}

/// Tries a line.
pub(crate) fn outcome(alloc: Global, line: &str) -> Result<Outcome, AllocError> {
    let Some(case) = Case::of(line) else {
        return Ok(Outcome::Malformed);
    };
    let Ok(mut config) = read_config(alloc, TEXT.as_bytes()) else {
        return Err(AllocError);
    };
    let told = set(alloc, &mut config, case.setting, case.value)?;
    let came = with_values(alloc, &told, &config)?;
    Outcome::of(alloc, case.wanted, &came)
}
