//! The laws of currencies.

ghost use Rattle.currency_laws.specs.Currencies.{CurrenciesStay};
ghost use Rattle.currency_laws.specs.Owing.{OwedInEachCurrency};

/// From the opening on, over every list of events and every start under another setup of the same party, each session
/// that is COMPLETED has one bill, and each charge detail record is in the currency of its session. A bill of a session
/// of before in the currency of today would break this (OCPI 2.2.1, CDRs: CDR object, member `currency`).
pub fn currencies_stay()
    ensures { CurrenciesStay }
{}

/// What is owed to such an operator in a currency, by a provider that holds some of its records: the sum of the costs
/// of the sessions in that currency whose bills are held, each once, less that of those whose credits are held, each
/// once. A sum that takes two currencies together would break this.
pub fn owed_in_each_currency()
    ensures { OwedInEachCurrency }
{}
