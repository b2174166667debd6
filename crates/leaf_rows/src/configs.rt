// Configurations and profiles.
use crate::answer::Answer;
use crate::given::Given;
use row_files::RowFault;
use share_config::{Config, ConfigFault, HttpUrl, Profile, ProfileFault, config_of, profile_of};
use std::alloc::AllocError;

// A configuration's keys, each on a line.
fn add_keys(config: &Config, out: &mut Answer) {
    out.word("token ");
    out.digits(config.keys.token.as_slice());
    out.word("\nlink ");
    out.digits(config.keys.link.as_slice());
    out.word("\nadmin ");
    out.digits(config.admin.as_slice());
    for digest in config.providers.digests() {
        out.word("\nprovider ");
        out.digits(digest.as_slice());
    }
    out.word("\n");
}

fn add_config(config: &Config, out: &mut Answer) {
    out.word(config.keys.endpoint.as_str());
    out.number(" for ", config.keys.ttl.seconds());
    out.number(" seconds, ", config.providers.digests().len() as u64);
    out.word(" providers");
}

fn add_read(config: &Result<Config, ConfigFault>, keys: bool, out: &mut Answer) {
    match config {
        Ok(config) if keys => add_keys(config, out),
        Ok(config) => add_config(config, out),
        Err(fault) => out.show(fault),
    }
}

// A configuration's keys; or where links lead and how long, and how many providers there are; or the fault.
fn config(given: &Given, keys: bool, out: &mut Answer) {
    let config = config_of(out.alloc(), &given.bytes("text", out));
    add_read(&config, keys, out);
}

fn add_profile(profile: &Profile, out: &mut Answer) {
    out.words(profile.endpoint.as_str(), " until ");
    match &profile.expires {
        Some(time) => out.word(time.as_str()),
        None => out.word("no end"),
    }
    out.words(" by ", profile.bearer.as_str());
}

fn add_profile_read(profile: &Result<Profile, ProfileFault>, out: &mut Answer) {
    match profile {
        Ok(profile) => add_profile(profile, out),
        Err(fault) => out.show(fault),
    }
}

// A profile's fields, or the fault.
fn profile(given: &Given, out: &mut Answer) {
    let profile = profile_of(out.alloc(), &given.bytes("text", out));
    add_profile_read(&profile, out);
}

fn add_url(url: &Result<Option<HttpUrl>, AllocError>, out: &mut Answer) {
    match url {
        Ok(Some(url)) => out.word(url.as_str()),
        Ok(None) => out.word("no URL"),
        Err(_) => out.fail(RowFault::NoMemory),
    }
}

fn url(given: &Given, out: &mut Answer) {
    let url = HttpUrl::of(out.alloc(), &given.text("text", out));
    add_url(&url, out);
}

/// Answers a call, where it is one of these.
pub(crate) fn answer(call: &str, given: &Given, out: &mut Answer) -> bool {
    match call {
        "config" => config(given, false, out),
        "config_keys" => config(given, true, out),
        "profile" => profile(given, out),
        "url" => url(given, out),
        _ => return false,
    }
    true
}
