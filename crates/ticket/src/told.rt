// A trade in plain words, field by field.
use costs::brokerage::Brokerage;
use costs::charges::{Charges, Commission};
use costs::rebate::Rebate;
use detail::detail::Detail;
use fields::terms::Side;
use pieces::decimals::Scale;
use std::io::Write;
use std::{fmt, io};
use trade::reading::Trade;

// A number of units of a scale, as people write it: `12.5000`.
#[derive(Clone, Copy, PartialEq, Eq, Debug)]
struct Figure {
    units: u64,
    negative: bool,
    scale: Scale,
}

impl Figure {
    fn plain(units: u64, scale: Scale) -> Figure {
        Figure {
            units,
            negative: false,
            scale,
        }
    }

    fn signed(amount: i64, scale: Scale) -> Figure {
        Figure {
            units: amount.unsigned_abs(),
            negative: amount < 0,
            scale,
        }
    }
}

impl fmt::Display for Figure {
    fn fmt<W: fmt::Write>(&self, f: &mut fmt::Formatter<W>) -> fmt::Result {
        let sign = if self.negative { "-" } else { "" };
        let unit = self.scale.unit().max(1);
        let places = self.scale.places();
        write!(
            f,
            "{sign}{}.{:0places$}",
            self.units / unit,
            self.units % unit
        )
    }
}

pub fn tell_trade(rt: &HostRuntime, trade: &Trade<'_>) -> io::Result<()> {
    tell_parties(rt, trade)?;
    print!(rt; "security      ISIN ")?;
    tell_bytes(rt, &trade.security.bytes)?;
    print!(rt; "kind          ")?;
    tell_bytes(rt, &trade.quantity.kind)?;
    let nominal = Figure::plain(trade.quantity.nominal, Scale::Thousandths);
    println!(rt; "nominal       {nominal}")?;
    print!(rt; "currency      ")?;
    tell_bytes(rt, &trade.price.currency)?;
    let price = Figure::plain(trade.price.amount, Scale::TenThousandths);
    println!(rt; "price         {price}")?;
    tell_detail(rt, &trade.detail)?;
    if let Some(rebate) = trade.rebate {
        tell_rebate(rt, &rebate)?;
    }
    if let Some(brokerage) = trade.brokerage {
        tell_brokerage(rt, brokerage)?;
    }
    if let Some(charges) = trade.charges {
        tell_charges(rt, &charges)?;
    }
    if let Some(rate) = trade.rate {
        let rate = Figure::plain(rate, Scale::HundredThousandths);
        println!(rt; "exchange rate {rate}")?;
    }
    if let Some(note) = trade.note {
        print!(rt; "note          ")?;
        tell_bytes(rt, note)?;
    }
    Ok(())
}

fn tell_bytes(rt: &HostRuntime, bytes: &[u8]) -> io::Result<()> {
    rt.stdout().write_all(bytes)?;
    println!(rt; "")
}

// Who sells to whom; the side of a text is the counterparty's.
fn tell_parties(rt: &HostRuntime, trade: &Trade<'_>) -> io::Result<()> {
    let ours = trade.parties.entering;
    let theirs = trade.parties.counterparty;
    match trade.nature.side {
        Side::CounterpartyBuys => println!(rt;
            "seller        member {ours:04}, who enters the trade\nbuyer         member {theirs:04}"
        )?,
        Side::CounterpartySells => println!(rt;
            "seller        member {theirs:04}\nbuyer         member {ours:04}, who enters the trade"
        )?,
    }
    let made = if trade.nature.on_exchange {
        "on exchange"
    } else {
        "over the counter"
    };
    println!(rt; "made          {made}")
}

fn tell_detail(rt: &HostRuntime, detail: &Detail) -> io::Result<()> {
    println!(rt; "place         {}", detail.place)?;
    if let Some(date) = detail.traded {
        println!(rt; "trade date    {date}")?;
    }
    if let Some(time) = detail.time {
        println!(rt; "time          {time}")?;
    }
    if let Some(date) = detail.closing {
        println!(rt; "closing date  {date}")?;
    }
    if let Some(settlement) = detail.settlement {
        println!(rt; "settlement    {}", settlement.kind)?;
        println!(rt; "value date    {}", settlement.value_date)?;
    }
    if detail.new_issue {
        println!(rt; "issue         part of a new issue (EM)")?;
    }
    if let Some(days) = detail.interest_days {
        println!(rt; "interest days {days}")?;
    }
    if let Some(days) = detail.discount_days {
        println!(rt; "discount days {days}")?;
    }
    Ok(())
}

fn tell_rebate(rt: &HostRuntime, rebate: &Rebate) -> io::Result<()> {
    if let Some(discount) = rebate.discount {
        let discount = Figure::plain(discount, Scale::Hundredths);
        println!(rt; "discount      {discount}")?;
    }
    if let Some(bonus) = rebate.bonus {
        let bonus = Figure::signed(bonus, Scale::Thousandths);
        println!(rt; "bonus rate    {bonus} percent")?;
    }
    Ok(())
}

fn tell_brokerage(rt: &HostRuntime, brokerage: Brokerage) -> io::Result<()> {
    match brokerage {
        Brokerage::Agreed(amount) => {
            let amount = Figure::signed(amount, Scale::Hundredths);
            println!(rt; "brokerage     agreed, {amount}")
        }
        Brokerage::Free => println!(rt; "brokerage     none (FC)"),
        Brokerage::FreeOfAll => println!(rt;
            "brokerage     none, and no expenses and no commission (FR)"
        ),
        Brokerage::Half => println!(rt; "brokerage     half the usual one (HC)"),
    }
}

fn tell_charges(rt: &HostRuntime, charges: &Charges) -> io::Result<()> {
    if let Some(expenses) = charges.expenses {
        let expenses = Figure::signed(expenses, Scale::Hundredths);
        println!(rt; "expenses      {expenses}")?;
    }
    match charges.commission {
        Some(Commission::Amount(amount)) => {
            let amount = Figure::signed(amount, Scale::Hundredths);
            println!(rt; "commission    {amount}")
        }
        Some(Commission::PerMille(rate)) => {
            let rate = Figure::signed(rate, Scale::Thousandths);
            println!(rt; "commission    {rate} per mille")
        }
        None => Ok(()),
    }
}
